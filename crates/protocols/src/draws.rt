//! Draws from every miner's tape at once; Specification: Draws
ghost use Rattle.std.specs.Prelude.{◌≡◌};
ghost use Rattle.protocols.specs.Place.{counts, draw_answer};
ghost use Rattle.protocols.specs.Draws.{draw_each, draw_pairs, draw_block};
ghost use Rattle.protocols.specs.Lent.{tapes_of, lent_blocks};

use super::lent::Tapes;
use super::place::{Party, Place};
use super::shares::Shares;

impl Place {
    /// The next `ONE` words of miner 1's tape and the next `OTHERS` of each other miner's, with the moved place; `None`
    /// if a tape has fewer left.
    #[tactic(auto, using(crate::proofs::Laws::Draws::block_in_turn))]
    #[inline(always)]
    pub fn draw_block<'a, const ONE: usize, const OTHERS: usize>(
        self,
        tapes: &Tapes<'a>,
    ) -> Option<
        (
            (&'a [u32; ONE], &'a [u32; OTHERS], &'a [u32; OTHERS]),
            Place,
        ),
    >
        ensures { draw_answer self (lent_blocks result)
            ≡ draw_block (counts 0 ONE OTHERS OTHERS) self (tapes_of tapes.now) }
    {
        let Some((one, place1)) = self.draw::<ONE>(Party::One, tapes.one) else {
            return None;
        };
        let Some((two, place2)) = place1.draw::<OTHERS>(Party::Two, tapes.two) else {
            return None;
        };
        let Some((three, place3)) = place2.draw::<OTHERS>(Party::Three, tapes.three) else {
            return None;
        };
        Some(((one, two, three), place3))
    }

    /// The next word of each miner's tape, with the moved place; `None` if a tape has none left.
    #[tactic(auto, using(crate::proofs::Laws::Draws::each_of_block))]
    #[inline(always)]
    pub fn draw_each(self, tapes: &Tapes) -> Option<(Shares, Place)>
        ensures { draw_answer self result ≡ draw_each self (tapes_of tapes.now) }
    {
        let Some(((&[one], &[two], &[three]), next)) = self.draw_block::<1, 1>(tapes) else {
            return None;
        };
        Some((Shares { one, two, three }, next))
    }

    /// The next two words of each miner's tape, the first ones and the second ones, with the moved place; `None` if a
    /// tape has fewer left.
    #[tactic(auto, using(crate::proofs::Laws::Draws::pairs_of_block))]
    #[inline(always)]
    pub fn draw_pairs(self, tapes: &Tapes) -> Option<((Shares, Shares), Place)>
        ensures { draw_answer self result ≡ draw_pairs self (tapes_of tapes.now) }
    {
        let Some(((&[one, one2], &[two, two2], &[three, three2]), next)) = self.draw_block::<2, 2>(
            tapes,
        ) else {
            return None;
        };
        let first = Shares { one, two, three };
        let second = Shares {
            one: one2,
            two: two2,
            three: three2,
        };
        Some(((first, second), next))
    }
}
