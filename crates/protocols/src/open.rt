//! Open: fresh shares for the controller, and the word that they add up to; Specification: Open
ghost use Rattle.std.specs.Prelude.{◌≡◌};
ghost use Rattle.protocols.specs.Word.{modulus};
ghost use Rattle.protocols.specs.Shares.{sum_of};
ghost use Rattle.protocols.specs.Protocol.{perform};
ghost use Rattle.protocols.specs.Outcome.{outcome, delivery_of, delivery};
ghost use Rattle.protocols.specs.Lent.{tapes_of, lists_of, SameLists};
ghost use Rattle.protocols.specs.Open.{opening};

use super::lent::{Lists, Tapes};
use super::outcome::{Done, Shortage};
use super::place::Place;
use super::shares::Shares;
use super::{list, reshare, ring};

/// Fresh ring shares of the value of `s`, as the controller receives them; the miners keep `s`. Specification: Open.
///
/// Draws 1 word of each miner's tape.
/// Sends 1 word to each miner, and the three shares, in the miners' order, to the controller.
///
/// # Errors
/// `TapeSpent` if a tape has too few words left at `place`, `ListFull` if a list has too little room; then nothing is
/// drawn or written.
#[tactic(auto, using(crate::proofs::Laws::Lent::opening_performs), unfolding(crate::specs::Open::opening))]
#[inline(always)]
pub fn open(s: Shares, place: Place, tapes: &Tapes, lists: &mut Lists) -> Result<Done, Shortage>
    ensures same { SameLists lists.old lists.new }
    ensures done { delivery_of (outcome place result) (lists_of lists.new)
        ≡ delivery place (perform (opening (modulus 5)) s place (tapes_of tapes.now)) (lists_of lists.old) }
{
    let Some((r, next)) = place.draw_each(tapes) else {
        return Err(Shortage::TapeSpent);
    };
    if !lists.have_room(1, 1, 1, 3) {
        return Err(Shortage::ListFull);
    }
    let fresh = reshare::fresh_shares(s, r);
    list::put(lists.controller, 0, &[fresh.one, fresh.two, fresh.three]);
    lists.pass(&[r]);
    Ok(Done {
        shares: fresh,
        place: next,
    })
}

/// The value of ring shares: their sum modulo 2^32. Specification: Shares.
#[tactic(auto, unfolding(crate::specs::Shares::sum_of))]
pub fn total(s: Shares) -> u32
    ensures { result ≡ sum_of (modulus 5) s }
{
    ring::add(ring::add(s.one, s.two), s.three)
}
