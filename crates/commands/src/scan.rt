//! Reads the text of the cases: numbers, and words that only explain them.
//! A number ends where its digits end, and a list may go over several lines.
ghost use Rattle.std.specs.Prelude.{◌≡◌, ◌++◌};

// What is still to be read.
#[derive(Drop)]
pub struct Scanner<'a> {
    rest: &'a [u8],
}

fn is_space(byte: u8) -> bool {
    byte == b' ' || byte == b'\n'
}

// A value with one more digit. No number of the text is above 2^64 - 1.
fn with_digit(value: u64, byte: &u8) -> u64 {
    let digit = u64::from(byte % 16);
    value
        .checked_mul(10)
        .map_or(value, |tens| tens.wrapping_add(digit))
}

impl<'a> Scanner<'a> {
    pub(crate) fn new(text: &'a [u8]) -> Scanner<'a> {
        Scanner { rest: text }
    }

    // Takes the text before the first byte that ends it, or all that is left.
    fn until<F: FnMut(&u8) -> bool>(&mut self, ends: F) -> &'a [u8]
        requires { F.IsAlwaysCallable ends }
        ensures { self.old.rest.now ≡ result.now ++ self.new.rest.now }
    {
        let text = self.rest;
        let end = text.iter().position(ends).unwrap_or(text.len());
        let (read, rest) = text.split_at(end);
        self.rest = rest;
        read
    }

    // The next number. A digit within a word, as in tape1, does not begin one.
    pub(crate) fn number(&mut self) -> u64 {
        let mut within = false;
        self.until(|byte| {
            let begins = !within && byte.is_ascii_digit();
            within = !is_space(*byte);
            begins
        });
        self.until(|byte| !byte.is_ascii_digit())
            .iter()
            .fold(0, with_digit)
    }

    pub(crate) fn word(&mut self) -> u32 {
        (self.number() % 4294967296) as u32
    }

    pub(crate) fn count(&mut self) -> usize {
        self.number() as usize
    }

    // Reads a list, its count and then its words, to the front of the room, as many as it holds. Answers the list and
    // the room behind it.
    pub(crate) fn list<'b>(&mut self, room: &'b mut [u32]) -> (&'b mut [u32], &'b mut [u32]) {
        let words = self.count().min(room.len());
        let (list, behind) = room.split_at_mut(words);
        for entry in list.iter_mut() {
            *entry = self.word();
        }
        (list, behind)
    }

    // The next line that is not empty, or an empty one at the text's end.
    pub(crate) fn line(&mut self) -> &'a [u8] {
        self.until(|byte| *byte != b'\n');
        self.until(|byte| *byte == b'\n')
    }
}
