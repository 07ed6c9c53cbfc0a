//! Two hundred generated cases of a protocol as one number: h becomes 31 h + word for each word of each outcome.
use crate::code::Code;
use crate::lists::Delivered;
use crate::words::Generator;
use crate::{case, lists, print};
use protocols::place::Place;
use protocols::shares::Shares;
use std::io;
use std::io::Write;

fn word(h: u32, n: u32) -> u32 {
    h.wrapping_mul(31).wrapping_add(n)
}

fn count(h: u32, n: usize) -> u32 {
    word(h, (n % 4294967296) as u32)
}

fn shares(h: u32, s: Shares) -> u32 {
    [s.one, s.two, s.three].into_iter().fold(h, word)
}

// The ten counts, in the order in which they are printed.
fn place(h: u32, place: Place) -> u32 {
    let drawn = place.drawn;
    let received = place.received;
    [
        place.handles,
        place.inputs,
        drawn.provider,
        drawn.one,
        drawn.two,
        drawn.three,
        received.one,
        received.two,
        received.three,
        received.controller,
    ]
    .into_iter()
    .fold(h, count)
}

// How many words were received, then the words.
fn received_words(h: u32, list: &[u32; 32]) -> u32 {
    let words = lists::received_count(list);
    list.iter().take(words).copied().fold(count(h, words), word)
}

fn outcome(h: u32, delivered: &Delivered) -> u32 {
    let done = delivered.done();
    let h = shares(word(h, delivered.number()), done.shares);
    let h = place(h, done.place);
    delivered
        .lists
        .iter()
        .fold(h, |h, (_, list)| received_words(h, list))
}

// Tapes may be too short, so that some of the protocols are not done.
pub(crate) fn print(out: &mut impl Write, code: Code, generator: &mut Generator) -> io::Result<()> {
    let mut h = 0;
    for _ in 0..200 {
        let case = case::next_case(code, generator);
        h = outcome(h, &case::perform(&case, generator));
    }
    writeln!(out, "checksum {code} {h}")
}
