//! The tapes and received lists that are lent to a protocol; Specification: Lent lists
ghost use Rattle.std.specs.Prelude.{◌≡◌, ◌+◌, ◌<◌, length};
ghost use Rattle.protocols.specs.Counts.{received_counts};
ghost use Rattle.protocols.specs.Outcome.{have_room, with_fronts};
ghost use Rattle.protocols.specs.Lent.{tapes_of, lists_of, SameLists};
ghost use Rattle.protocols.specs.Private.Lending.{words_at, HaveRoom, to_next_in_order};

use super::list;
use super::shares::Shares;

/// The random words of the provider and of each miner: four tapes of any length. A protocol draws the words after those
/// that its place record counts.
#[repr(C)]
#[derive(Clone, Copy, Drop)]
pub struct Tapes<'a> {
    /// The provider's random words.
    pub provider: &'a [u32],
    /// Miner 1's random words.
    pub one: &'a [u32],
    /// Miner 2's random words.
    pub two: &'a [u32],
    /// Miner 3's random words.
    pub three: &'a [u32],
}

/// The received lists of the miners and of the controller, each from its first free entry on and of any length. A
/// protocol writes each party's words to the front of its list.
// Each function that is lent them ensures `SameLists`: without it the check does not find what a list holds after a
// call.
#[repr(C)]
#[derive(Drop)]
pub struct Lists<'a> {
    /// Where miner 1's received words go.
    pub one: &'a mut [u32],
    /// Where miner 2's received words go.
    pub two: &'a mut [u32],
    /// Where miner 3's received words go.
    pub three: &'a mut [u32],
    /// Where the controller's received words go.
    pub controller: &'a mut [u32],
}

impl Tapes<'_> {
    // Word `k` of the tapes of miners 2 and 3, and word `ahead + k` of miner 1's.
    #[inline(always)]
    pub(crate) fn at(&self, ahead: usize, k: usize) -> Shares
        requires one { ahead + k < length self.now.one.now }
        requires two { k < length self.now.two.now }
        requires three { k < length self.now.three.now }
        ensures { result ≡ words_at (tapes_of self.now) (ahead + k) k }
    {
        Shares {
            one: self.one[ahead + k],
            two: self.two[k],
            three: self.three[k],
        }
    }
}

impl Lists<'_> {
    /// The controller's list, for reading.
    pub fn controller(&self) -> &[u32]
        ensures { result.now ≡ self.now.controller.now }
    {
        self.controller
    }

    // Whether the lists have room for so many words.
    #[inline(always)]
    pub(crate) fn have_room(&self, one: usize, two: usize, three: usize, controller: usize) -> bool
        ensures { result ≡ have_room (lists_of self.now) (received_counts one two three controller) }
    {
        (controller <= self.controller.len())
            & list::have_room(self.one, self.two, self.three, one, two, three)
    }

    // Sends words of each miner to the next miner, in order, to the front of the lists.
    #[inline(always)]
    pub(crate) fn pass(&mut self, words: &[Shares])
        requires { let n = length words.now in HaveRoom n n n (lists_of self.old) }
        ensures same { SameLists self.old self.new }
        ensures passed { lists_of self.new ≡ with_fronts (lists_of self.old) (to_next_in_order words.now) }
    {
        list::pass(self.one, self.two, self.three, 0, 0, words)
    }
}
