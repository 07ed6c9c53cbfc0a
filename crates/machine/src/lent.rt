//! The share tables and the kind list, and the lengths of all lent lists; Specification: Lent lists.
ghost use Rattle.std.specs.Prelude.{◌≡◌};
ghost use Rattle.protocols.specs.Place.{lists};
ghost use Rattle.protocols.specs.Lent.{tapes_of};
ghost use Rattle.machine.specs.Lent.{shares_at, tables, tables_of, lent_lists, sizes};
ghost use Rattle.machine.specs.Private.Accept.{HasEntry};

use protocols::lent::Tapes;
use protocols::place::{Drawn, Received};
use protocols::shares::Shares;

/// The three share tables and the kind list, with a word for each handle: index 0 is handle 1. If their lengths differ,
/// every command is refused with 4.
// No struct has all lent lists: a contract cannot say what the lists of a struct within a lent struct hold after a
// call, and a session is lent tables and received lists only.
#[repr(C)]
#[derive(Drop)]
pub struct Tables<'a> {
    /// Miner 1's shares.
    pub one: &'a mut [u32],
    /// Miner 2's shares.
    pub two: &'a mut [u32],
    /// Miner 3's shares.
    pub three: &'a mut [u32],
    /// The kinds: 1 for a ring value, 2 for a bit word.
    pub kinds: &'a mut [u32],
}

impl Tables<'_> {
    // The three shares of a handle.
    #[inline(always)]
    pub(crate) fn shares(&self, h: u32) -> Shares
        requires { HasEntry (tables_of self.now) h }
        ensures { result ≡ shares_at (tables_of self.now) h }
    {
        let i = h as usize - 1;
        Shares {
            one: self.one[i],
            two: self.two[i],
            three: self.three[i],
        }
    }

    /// The kind list, to be read.
    pub fn kinds(&self) -> &[u32]
        ensures { result.now ≡ self.now.kinds.now }
    {
        self.kinds
    }
}

/// The lengths of all lent lists, in words.
#[derive(Clone, Copy, Debug, PartialEq, Eq)]
pub struct Sizes {
    /// Miner 1's share table.
    pub one: usize,
    /// Miner 2's share table.
    pub two: usize,
    /// Miner 3's share table.
    pub three: usize,
    /// The kind list.
    pub kinds: usize,
    /// The inputs.
    pub inputs: usize,
    /// The four tapes.
    pub tapes: Drawn,
    /// The four received lists.
    pub received: Received,
}

impl Sizes {
    /// The lengths of these lists, in words: the tables of miners 1 to 3, kinds, inputs, tapes, and the received lists
    /// of miners 1 to 3 and the controller.
    // The lists are only read and so come one by one: `Tables` and `Lists` have lists that can be written.
    pub fn of(
        one: &[u32],
        two: &[u32],
        three: &[u32],
        kinds: &[u32],
        inputs: &[u32],
        tapes: &Tapes,
        received1: &[u32],
        received2: &[u32],
        received3: &[u32],
        controller: &[u32],
    ) -> Sizes
        ensures { let shares = tables one.now two.now three.now in
            let received = lists received1.now received2.now received3.now controller.now in
            result ≡ sizes (lent_lists shares kinds.now inputs.now (tapes_of tapes.now) received) }
    {
        Sizes {
            one: one.len(),
            two: two.len(),
            three: three.len(),
            kinds: kinds.len(),
            inputs: inputs.len(),
            tapes: Drawn {
                provider: tapes.provider.len(),
                one: tapes.one.len(),
                two: tapes.two.len(),
                three: tapes.three.len(),
            },
            received: Received {
                one: received1.len(),
                two: received2.len(),
                three: received3.len(),
                controller: controller.len(),
            },
        }
    }
}
