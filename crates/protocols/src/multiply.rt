//! Multiply: the product of two ring values; Specification: Multiply
ghost use Rattle.std.specs.Prelude.{◌≡◌};
ghost use Rattle.protocols.specs.Word.{modulus};
ghost use Rattle.protocols.specs.Shares.{operands};
ghost use Rattle.protocols.specs.Protocol.{perform};
ghost use Rattle.protocols.specs.Outcome.{outcome, delivery_of, delivery};
ghost use Rattle.protocols.specs.Lent.{tapes_of, lists_of, SameLists};
ghost use Rattle.protocols.specs.Multiply as spec;

use super::lent::{Lists, Tapes};
use super::outcome::{Done, Shortage};
use super::place::Place;
use super::shares::Shares;
use super::{reshare, ring};

// A miner's share of the product, from its own masked shares u, v and the previous miner's x, y.
fn product_share(u: u32, v: u32, x: u32, y: u32) -> u32
    ensures { result ≡ spec.product_share (modulus 5) u v x y }
{
    ring::add(ring::add(ring::mul(u, v), ring::mul(u, y)), ring::mul(x, v))
}

// Shares of the product, from the masked shares of both operands.
fn product(u: Shares, v: Shares) -> Shares
    ensures { result ≡ spec.product (modulus 5) u v }
{
    u.zip_previous(v, product_share)
}

/// Ring shares of the product of `u` and `v` modulo 2^32. Specification: Multiply.
///
/// Draws 2 words of each miner's tape.
/// Sends 4 words to each miner.
///
/// # Errors
/// `TapeSpent` if a tape has too few words left at `place`, `ListFull` if a list has too little room; then nothing is
/// drawn or written.
#[tactic(auto, using(crate::proofs::Laws::Lent::multiply_performs), unfolding(crate::specs::Multiply::multiply))]
#[inline(always)]
pub fn multiply(
    u: Shares,
    v: Shares,
    place: Place,
    tapes: &Tapes,
    lists: &mut Lists,
) -> Result<Done, Shortage>
    ensures same { SameLists lists.old lists.new }
    ensures done { delivery_of (outcome place result) (lists_of lists.new)
        ≡ delivery place (perform (spec.multiply (modulus 5)) (operands u v) place (tapes_of tapes.now))
        (lists_of lists.old) }
{
    let Some(((r, s), next)) = place.draw_pairs(tapes) else {
        return Err(Shortage::TapeSpent);
    };
    if !lists.have_room(4, 4, 4, 0) {
        return Err(Shortage::ListFull);
    }
    let x = reshare::fresh_shares(u, r);
    let y = reshare::fresh_shares(v, s);
    lists.pass(&[r, s, x, y]);
    Ok(Done {
        shares: product(x, y),
        place: next,
    })
}
