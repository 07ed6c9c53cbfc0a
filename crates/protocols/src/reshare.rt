//! Reshare: fresh shares of the same value; Specification: Reshare
ghost use Rattle.std.specs.Prelude.{◌≡◌};
ghost use Rattle.protocols.specs.Word.{modulus};
ghost use Rattle.protocols.specs.Protocol.{perform};
ghost use Rattle.protocols.specs.Outcome.{outcome, delivery_of, delivery};
ghost use Rattle.protocols.specs.Lent.{tapes_of, lists_of, SameLists};
ghost use Rattle.protocols.specs.Reshare as spec;

use super::lent::{Lists, Tapes};
use super::outcome::{Done, Shortage};
use super::place::Place;
use super::ring;
use super::shares::Shares;

/// Fresh ring shares of the value of `s`: each share plus its miner's own mask of `r`, minus the previous miner's.
pub fn fresh_shares(s: Shares, r: Shares) -> Shares
    ensures { result ≡ spec.fresh_shares (modulus 5) s r }
{
    s.zip(r, ring::add).zip(r.previous(), ring::sub)
}

/// Fresh ring shares of the value of `s`. Specification: Reshare.
///
/// Draws 1 word of each miner's tape.
/// Sends 1 word to each miner.
///
/// # Errors
/// `TapeSpent` if a tape has too few words left at `place`, `ListFull` if a list has too little room; then nothing is
/// drawn or written.
#[tactic(auto, using(crate::proofs::Laws::Lent::reshare_performs), unfolding(crate::specs::Reshare::reshare))]
#[inline(always)]
pub fn reshare(s: Shares, place: Place, tapes: &Tapes, lists: &mut Lists) -> Result<Done, Shortage>
    ensures same { SameLists lists.old lists.new }
    ensures done { delivery_of (outcome place result) (lists_of lists.new)
        ≡ delivery place (perform (spec.reshare (modulus 5)) s place (tapes_of tapes.now)) (lists_of lists.old) }
{
    let Some((r, next)) = place.draw_each(tapes) else {
        return Err(Shortage::TapeSpent);
    };
    if !lists.have_room(1, 1, 1, 0) {
        return Err(Shortage::ListFull);
    }
    lists.pass(&[r]);
    Ok(Done {
        shares: fresh_shares(s, r),
        place: next,
    })
}
