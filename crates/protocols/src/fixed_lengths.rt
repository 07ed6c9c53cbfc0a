//! The frame of Bits, Equal and Below: how many words they draw and send is fixed, so they compute on arrays.
ghost use Rattle.std.specs.Prelude.{◌≡◌, ◌<◌, ◌^◌, [], length};
ghost use Rattle.protocols.specs.declared.shares.Shares as value;
ghost use Rattle.protocols.specs.Place as spec;
ghost use Rattle.protocols.specs.Place.{tapes, lists, counts, Receiver, list};
ghost use Rattle.protocols.specs.Protocol.{Protocol, perform};
ghost use Rattle.protocols.specs.Outcome.{outcome, delivery_of, delivery};
ghost use Rattle.protocols.specs.Counts.{received_counts, count_for};
ghost use Rattle.protocols.specs.Lent.{tapes_of, lists_of, SameLists};

use super::lent::{Lists, Tapes};
use super::list;
use super::outcome::{Done, Shortage};
use super::place::Place;
use super::shares::Shares;

// A protocol that draws D1 words of miner 1's tape and D of each other miner's, and sends R1 words to miner 1 and R to
// each other miner.
pub(crate) trait FixedLengths<const D1: usize, const D: usize, const R1: usize, const R: usize> {
    // The shares of its operands, which a value of this type holds.
    ghost Operands: { Type 0 };

    ghost operands: { Self → Operands };

    ghost protocol: { Protocol Operands value.Shares };

    // What it computes on: the operands, or what each miner makes of its own shares of them.
    ghost input_of: { Operands → value.Shares };

    fn input(&self) -> Shares
        ensures { result ≡ input_of (operands self.now) };

    // The new shares, from the input and the drawn words. The received words are written to arrays of their number.
    fn compute(
        input: Shares,
        tape1: &[u32; D1],
        tape2: &[u32; D],
        tape3: &[u32; D],
        one: &mut [u32; R1],
        two: &mut [u32; R],
        three: &mut [u32; R],
    ) -> Shares
        ensures shares { (x : Operands) → input ≡ input_of x
            → result ≡ protocol.result x (tapes [] tape1.now tape2.now tape3.now) }
        ensures words { (x : Operands) → input ≡ input_of x
            → lists one.new two.new three.new [] ≡ protocol.received x (tapes [] tape1.now tape2.now tape3.now) };

    // The protocol on lists that are lent one by one: the check does not find what a list within a lent struct holds
    // after a part of it was lent.
    #[inline(always)]
    final fn deliver_by_list(
        &self,
        place: Place,
        tapes: Tapes,
        one: &mut [u32],
        two: &mut [u32],
        three: &mut [u32],
    ) -> Result<Done, Shortage>
        requires small { (D1 < 2 ^ 32) × (D < 2 ^ 32) × (R1 < 2 ^ 32) × (R < 2 ^ 32) }
        requires draws { protocol.draws ≡ counts 0 D1 D D }
        requires receives { (x : Operands) (b : spec.Tapes) (r : Receiver)
            → length (list r (protocol.received x b)) ≡ count_for r (received_counts R1 R R 0) }
        ensures { delivery_of (outcome place result) (lists one.new two.new three.new [])
            ≡ delivery place (perform protocol (operands self.now) place (tapes_of tapes.entry))
            (lists one.old two.old three.old []) }
    {
        let Some(((tape1, tape2, tape3), next)) = place.draw_block::<D1, D>(&tapes) else {
            return Err(Shortage::TapeSpent);
        };
        if !list::have_room(one, two, three, R1, R, R) {
            return Err(Shortage::ListFull);
        }
        let input = self.input();
        // `have_room` has shown that each list has so many words.
        let (one, two, three) = (list::front(one), list::front(two), list::front(three));
        Ok(Done {
            shares: Self::compute(input, tape1, tape2, tape3, one, two, three),
            place: next,
        })
    }

    // The protocol on the lent tapes and lists.
    #[inline(always)]
    final fn deliver(
        &self,
        place: Place,
        tapes: &Tapes,
        lists: &mut Lists,
    ) -> Result<Done, Shortage>
        requires small { (D1 < 2 ^ 32) × (D < 2 ^ 32) × (R1 < 2 ^ 32) × (R < 2 ^ 32) }
        requires draws { protocol.draws ≡ counts 0 D1 D D }
        requires receives { (x : Operands) (b : spec.Tapes) (r : Receiver)
            → length (list r (protocol.received x b)) ≡ count_for r (received_counts R1 R R 0) }
        ensures same { SameLists lists.old lists.new }
        ensures done { delivery_of (outcome place result) (lists_of lists.new)
            ≡ delivery place (perform protocol (operands self.now) place (tapes_of tapes.now)) (lists_of lists.old) }
    {
        self.deliver_by_list(place, *tapes, lists.one, lists.two, lists.three)
    }
}
