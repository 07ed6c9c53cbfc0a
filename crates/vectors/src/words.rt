//! Lists of words for the cases: from a congruential generator, or numbers in a row.
use std::array;

// A generator of words, with its state.
#[derive(Clone, Copy)]
pub struct Generator {
    at: u32,
}

impl Generator {
    pub(crate) fn new(at: u32) -> Generator {
        Generator { at }
    }

    // The low bits repeat too soon, so the high ones are folded into them.
    pub(crate) fn next_word(&mut self) -> u32 {
        self.at = self.at.wrapping_mul(1664525).wrapping_add(1013904223);
        self.at ^ (self.at >> 16)
    }

    // The next words.
    pub(crate) fn words<const N: usize>(&mut self) -> [u32; N] {
        array::from_fn(|_| self.next_word())
    }
}

// Numbers in a row.
pub(crate) fn in_a_row<const N: usize>(first: u32) -> [u32; N] {
    array::from_fn(|i| first.wrapping_add((i % 4294967296) as u32))
}
