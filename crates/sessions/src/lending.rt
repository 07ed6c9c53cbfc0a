//! A session that is lent lists of chosen lengths, all zero.
use machine::lent::Tables;
use protocols::lent::Lists;
use session::{TEXT, WORDS};
use std::io;
use std::io::Write;

// Entries of each share table and of the kind list, words of the controller's list, and words lent.
#[derive(Clone, Copy)]
pub struct Lending {
    pub entries: usize,
    pub kinds: usize,
    pub controller: usize,
    pub words: usize,
}

// The lengths that `pool` lends.
pub(crate) const WHOLE: Lending = Lending {
    entries: 128,
    kinds: 128,
    controller: 3584,
    words: WORDS,
};

// The front of a list, or all of it.
fn front(list: &mut [u32], count: usize) -> &mut [u32] {
    let end = count.min(list.len());
    &mut list[..end]
}

// Prints the text of a session. The arrays repeat those of `pool`, so that the program has no parameters for this test.
pub(crate) fn print(out: &mut impl Write, file: &[u8], lent: Lending) -> io::Result<()> {
    let mut words = [0u32; WORDS];
    let mut share1 = [0u32; 128];
    let mut share2 = [0u32; 128];
    let mut share3 = [0u32; 128];
    let mut kinds = [0u32; 128];
    let mut received1 = [0u32; 3584];
    let mut received2 = [0u32; 3584];
    let mut received3 = [0u32; 3584];
    let mut controller = [0u32; 3584];
    let mut text = [0u8; TEXT];
    let mut tables = Tables {
        one: front(&mut share1, lent.entries),
        two: front(&mut share2, lent.entries),
        three: front(&mut share3, lent.entries),
        kinds: front(&mut kinds, lent.kinds),
    };
    let mut lists = Lists {
        one: &mut received1,
        two: &mut received2,
        three: &mut received3,
        controller: front(&mut controller, lent.controller),
    };
    let words = front(&mut words, lent.words);
    let length = session::pool(file, words, &mut tables, &mut lists, &mut text);
    out.write_all(&text[..length])
}
