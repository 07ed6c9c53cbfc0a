//! Received words, written into lists that are lent one by one; Specification: Received words
ghost use Rattle.std.specs.Prelude.{◌≡◌, ◌+◌, ◌≤◌, length, take, []};
ghost use Rattle.std.specs.Borrow.{sem};
ghost use Rattle.std.proofs.lemmas.List.Edits.{sets};
ghost use Rattle.protocols.specs.Counts.{received_counts};
ghost use Rattle.protocols.specs.Place.{lists};
ghost use Rattle.protocols.specs.Outcome.{have_room};
ghost use Rattle.protocols.specs.Private.Lending.{HaveRoom, LendsFront, to_next_in_order, with_words_at};

use super::shares::Shares;

// Writes words into a list from index `at` on. It goes word by word, since `copy_from_slice` compiles to a test of
// whether the two overlap.
#[inline(always)]
pub(crate) fn put(list: &mut [u32], at: usize, words: &[u32])
    requires { at + length words.now ≤ length list.old }
    ensures { list.new ≡ sets list.old at words.now }
{
    for (k, word) in words.iter().enumerate() {
        list[at + k] = *word;
    }
}

// The first N words of a list, for writing.
#[inline(always)]
pub(crate) fn front<const N: usize>(list: &mut [u32]) -> &mut [u32; N]
    requires { N ≤ length list.old }
    ensures first { result.now ≡ take N list.old }
    ensures* writes_back { sem 𝓛 (LendsFront N list.entry result) }
{
    let Some(words) = list.first_chunk_mut() else {
        unreachable!();
    };
    words
}

// Whether the miners' lists have room for so many words.
#[inline(always)]
pub(crate) fn have_room(
    list1: &[u32],
    list2: &[u32],
    list3: &[u32],
    one: usize,
    two: usize,
    three: usize,
) -> bool
    ensures { result ≡ have_room (lists list1.now list2.now list3.now []) (received_counts one two three 0) }
{
    (one <= list1.len()) & ((two <= list2.len()) & (three <= list3.len()))
}

// Sends words of each miner to the next miner, in order: into list 1 from `first` on, into lists 2 and 3 from `at` on.
#[inline(always)]
pub(crate) fn pass(
    list1: &mut [u32],
    list2: &mut [u32],
    list3: &mut [u32],
    first: usize,
    at: usize,
    words: &[Shares],
)
    requires { let n = length words.now in
        HaveRoom (first + n) (at + n) (at + n) (lists list1.old list2.old list3.old []) }
    ensures { lists list1.new list2.new list3.new []
        ≡ with_words_at (received_counts first at at 0) (lists list1.old list2.old list3.old [])
        (to_next_in_order words.now) }
{
    for (k, word) in words.iter().enumerate() {
        list1[first + k] = word.three;
        list2[at + k] = word.one;
        list3[at + k] = word.two;
    }
}
