//! Store: the provider splits an input into shares; Specification: Store
ghost use Rattle.std.specs.Prelude.{◌≡◌};
ghost use Rattle.protocols.specs.Word.{modulus};
ghost use Rattle.protocols.specs.Protocol.{perform};
ghost use Rattle.protocols.specs.Outcome.{outcome, delivery_of, delivery};
ghost use Rattle.protocols.specs.Lent.{tapes_of, lists_of, SameLists};
ghost use Rattle.protocols.specs.Store as spec;

use super::lent::{Lists, Tapes};
use super::outcome::{Done, Shortage};
use super::place::{Party, Place};
use super::ring;
use super::shares::Shares;

/// Ring shares of the input `v`: the provider draws two of them. Specification: Store.
///
/// Draws 2 words of the provider's tape.
/// Sends its share to each miner.
///
/// # Errors
/// `TapeSpent` if a tape has too few words left at `place`, `ListFull` if a list has too little room; then nothing is
/// drawn or written.
#[tactic(auto, using(crate::proofs::Laws::Lent::store_performs), unfolding(crate::specs::Store::store))]
#[inline(always)]
pub fn store(v: u32, place: Place, tapes: &Tapes, lists: &mut Lists) -> Result<Done, Shortage>
    ensures same { SameLists lists.old lists.new }
    ensures done { delivery_of (outcome place result) (lists_of lists.new)
        ≡ delivery place (perform (spec.store (modulus 5)) v place (tapes_of tapes.now)) (lists_of lists.old) }
{
    let Some((&[s1, s2], next)) = place.draw::<2>(Party::Provider, tapes.provider) else {
        return Err(Shortage::TapeSpent);
    };
    if !lists.have_room(1, 1, 1, 0) {
        return Err(Shortage::ListFull);
    }
    let shares = Shares::from([s1, s2, ring::sub(ring::sub(v, s1), s2)]);
    lists.one[0] = shares.one;
    lists.two[0] = shares.two;
    lists.three[0] = shares.three;
    Ok(Done {
        shares,
        place: next,
    })
}
