//! The lines of a session's text, written to the front of a lent buffer; Specification: Lines.
ghost use Rattle.std.specs.Prelude.{◌≡◌, ◌+◌, ◌*◌, ◌≤◌, [], ◌∷◌, length};
ghost use Rattle.protocols.specs.Word.{modulus};
ghost use Rattle.protocols.specs.Shares.{shares_of, sum_of};
ghost use Rattle.machine.specs.Run.{commands_of, sums_in_threes};
ghost use Rattle.session.specs.Text.{spaced_numbers, end_line, stop_line, last_line, refusal_line, open_lines_by_words};
ghost use Rattle.session.specs.Text as spec;
ghost use Rattle.session.specs.Private.Writing.{Adds, HasRoom};

use super::answer::SessionAnswer;
use protocols::open;
use protocols::shares::Shares;

// The code of the command that opens a value.
const OPEN: u32 = 11;

// The text so far, at the front of a lent buffer. Each method requires the room that it needs, so that no write fails.
#[derive(Drop)]
pub(crate) struct Text<'a> {
    out: &'a mut [u8],
    len: usize,
}

impl<'a> Text<'a> {
    pub(crate) fn new(out: &'a mut [u8]) -> Text<'a>
        ensures same_reference { result.out.ghost_name ≡ out.entry.ghost_name }
        ensures same_bytes { result.out.now ≡ out.old }
        ensures empty { result.len ≡ 0 }
    {
        Text { out, len: 0 }
    }

    pub(crate) fn len(&self) -> usize
        ensures { result ≡ self.now.len }
    {
        self.len
    }

    fn put_bytes(&mut self, bytes: &[u8])
        requires { HasRoom self.old (length bytes.now) }
        ensures { Adds self.old bytes.now self.new }
    {
        let end = self.len + bytes.len();
        self.out[self.len..end].copy_from_slice(bytes);
        self.len = end;
    }

    // A space and a number.
    fn put_number(&mut self, n: u64)
        requires { HasRoom self.old 21 }
        ensures { Adds self.old (spaced_numbers (n ∷ [])) self.new }
    {
        let mut digits = itoa::Buffer::new();
        self.put_bytes(b" ");
        self.put_bytes(digits.format(n).as_bytes());
    }

    // Each number after a space.
    #[tactic(auto, using(crate::proofs::Laws::Text::numbers_fit), unfolding(crate::specs::Text::spaced_numbers))]
    fn put_numbers(&mut self, numbers: &[u64])
        requires { HasRoom self.old (21 * length numbers.now) }
        ensures added { Adds self.old (spaced_numbers numbers.now) self.new }
        ensures short { self.new.len ≤ self.old.len + 21 * length numbers.now }
    {
        for n in numbers {
            self.put_number(*n);
        }
    }

    // A line: a name, its numbers, a line feed.
    fn put_line(&mut self, name: &[u8], numbers: &[u64])
        requires { HasRoom self.old (length name.now + 21 * length numbers.now + 1) }
        ensures added { Adds self.old (spec.line name.now numbers.now) self.new }
        ensures short { self.new.len ≤ self.old.len + (length name.now + 21 * length numbers.now + 1) }
    {
        self.put_bytes(name);
        self.put_numbers(numbers);
        self.put_bytes(b"\n");
    }

    // `open H W` for each open among accepted commands; the shares are the controller's, three for each open.
    pub(crate) fn put_opens(&mut self, commands: &[u32], shares: &[u32])
        requires { 3 * self.old.len + 47 * length commands.now ≤ 3 * length self.old.out.now }
        ensures added { Adds self.old
            (open_lines_by_words (commands_of commands.now) (sums_in_threes (modulus 5) shares.now)) self.new }
        ensures short { 3 * self.new.len ≤ 3 * self.old.len + 47 * length commands.now }
    {
        let (commands, _) = commands.as_chunks::<3>();
        let (shares, _) = shares.as_chunks::<3>();
        let mut opened = shares.iter();
        for [code, handle, _] in commands {
            if *code == OPEN {
                let word = opened.next().map_or(0, sum_of_words);
                self.put_line(b"open", &[u64::from(*handle), u64::from(word)]);
            }
        }
    }

    // The last line: all commands were done, or one was refused.
    pub(crate) fn put_last(&mut self, answer: SessionAnswer)
        requires { HasRoom self.old 109 }
        ensures { Adds self.old (last_line answer) self.new }
    {
        if answer.number == 0 {
            self.put_end(answer);
        } else {
            self.put_stop(answer.number, answer.done);
        }
    }

    // `end N A B C D`: all commands were done, and so many words were received.
    #[tactic(auto, unfolding(crate::specs::Text::end_line))]
    fn put_end(&mut self, answer: SessionAnswer)
        requires { HasRoom self.old 109 }
        ensures { Adds self.old (end_line answer) self.new }
    {
        let received = answer.place.received;
        let numbers = [
            answer.done as u64,
            received.one as u64,
            received.two as u64,
            received.three as u64,
            received.controller as u64,
        ];
        self.put_line(b"end", &numbers);
    }

    // `refused R at K`: this command was refused with this number.
    fn put_stop(&mut self, number: u32, command: usize)
        requires { HasRoom self.old 53 }
        ensures { Adds self.old (stop_line number command) self.new }
    {
        self.put_bytes(b"refused");
        self.put_numbers(&[u64::from(number)]);
        self.put_line(b" at", &[command as u64]);
    }

    // `refused R`: the session was refused as a whole.
    #[tactic(auto, unfolding(crate::specs::Text::refusal_line))]
    pub(crate) fn put_refusal(&mut self, number: u32)
        requires { HasRoom self.old 29 }
        ensures { Adds self.old (refusal_line number) self.new }
    {
        self.put_line(b"refused", &[u64::from(number)]);
    }
}

// The word that three shares add up to.
fn sum_of_words(words: &[u32; 3]) -> u32
    ensures { result ≡ sum_of (modulus 5) (shares_of words.now) }
{
    open::total(Shares::from(*words))
}
