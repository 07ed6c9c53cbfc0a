//! Below: the highest bit of a difference; Specification: Below
ghost use Rattle.std.specs.Prelude.{◌≡◌};
ghost use Rattle.protocols.specs.Word.{modulus};
ghost use Rattle.protocols.specs.Shares.{Operands, operands};
ghost use Rattle.protocols.specs.Local.{difference};
ghost use Rattle.protocols.specs.Protocol.{perform};
ghost use Rattle.protocols.specs.Outcome.{outcome, delivery_of, delivery};
ghost use Rattle.protocols.specs.Lent.{tapes_of, lists_of, SameLists};
ghost use Rattle.protocols.specs.Below as spec;

use super::fixed_lengths::FixedLengths;
use super::lent::{Lists, Tapes};
use super::outcome::{Done, Shortage};
use super::place::Place;
use super::shares::Shares;
use super::{bit, bits, local};

// Below, as a protocol of fixed lengths; it computes on the difference of the operands, which is half as many words.
#[derive(Clone, Copy)]
struct HighestBit {
    u: Shares,
    v: Shares,
}

impl FixedLengths<18, 12, 22, 28> for HighestBit {
    ghost Operands = { Operands };

    ghost operands = { λ s. operands s.u s.v };

    ghost protocol = { spec.below 5 };

    ghost input_of = { difference (modulus 5) };

    #[inline(always)]
    fn input(&self) -> Shares {
        local::difference(self.u, self.v)
    }

    #[inline(never)]
    fn compute(
        d: Shares,
        tape1: &[u32; 18],
        tape2: &[u32; 12],
        tape3: &[u32; 12],
        one: &mut [u32; 22],
        two: &mut [u32; 28],
        three: &mut [u32; 28],
    ) -> Shares {
        let words = Tapes {
            provider: &[],
            one: &tape1[..15],
            two: tape2,
            three: tape3,
        };
        let word = bits::rounds(d, words, one, two, three);
        let bit_words = [tape1[15], tape1[16], tape1[17]];
        bit::convert(word, 31, &bit_words, &mut two[25..], &mut three[25..])
    }
}

/// Ring shares of bit 31 of `u - v` modulo 2^32: of 1 if `u` is below `v`, else of 0, for words that differ by less
/// than 2^31. Specification: Below.
///
/// Draws 18 words of miner 1's tape and 12 of each other miner's.
/// Sends 22 words to miner 1 and 28 to each other miner.
///
/// # Errors
/// `TapeSpent` if a tape has too few words left at `place`, `ListFull` if a list has too little room; then nothing is
/// drawn or written.
#[inline(always)]
pub fn below(
    u: Shares,
    v: Shares,
    place: Place,
    tapes: &Tapes,
    lists: &mut Lists,
) -> Result<Done, Shortage>
    ensures same { SameLists lists.old lists.new }
    ensures done { delivery_of (outcome place result) (lists_of lists.new)
        ≡ delivery place (perform (spec.below 5) (operands u v) place (tapes_of tapes.now)) (lists_of lists.old) }
{
    HighestBit { u, v }.deliver(place, tapes, lists)
}
