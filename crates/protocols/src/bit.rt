//! Bit: one position of a bit word as a ring value; Specification: Bit
ghost use Rattle.std.specs.Prelude.{◌≡◌, ◌≤◌, [], length};
ghost use Rattle.protocols.specs.Word.{modulus, bit_at, low_bit};
ghost use Rattle.protocols.specs.Protocol.{perform};
ghost use Rattle.protocols.specs.Place.{lists};
ghost use Rattle.protocols.specs.Outcome.{outcome, delivery_of, delivery, with_fronts};
ghost use Rattle.protocols.specs.Lent.{tapes_of, lists_of, SameLists};
ghost use Rattle.protocols.specs.Bit as spec;
ghost use Rattle.protocols.specs.Private.Lending.{tape_of_one};

use super::lent::{Lists, Tapes};
use super::outcome::{Done, Shortage};
use super::place::{Party, Place};
use super::shares::Shares;
use super::{list, ring};

// The bit at a position; 0 from position 32 on.
fn bit_at(x: u32, j: u32) -> u32
    ensures { result ≡ bit_at x j }
{
    if 32 <= j {
        return 0;
    }
    (x >> j) & 1
}

// The bit of each share at a position.
fn bits_at(u: Shares, j: u32) -> Shares
    ensures { result ≡ spec.bits_at j u }
{
    u.map(|x| bit_at(x, j))
}

// The random bit of a drawn word; Specification: Draws.
fn low_bit(x: u32) -> u32
    ensures { result ≡ low_bit x }
{
    x & 1
}

// The new shares, from the bit s that miners 2 and 3 learn and the words x, y that miner 1 sends them.
fn chosen_shares(s: u32, x: u32, y: u32) -> Shares
    ensures { result ≡ spec.chosen_shares (modulus 5) s x y }
{
    if s == 0 {
        Shares::from([0, x, y])
    } else {
        Shares::from([0, ring::sub(1, x), ring::sub(0, y)])
    }
}

// Bit on the three words drawn of miner 1's tape. The lists of miners 2 and 3 are lent one by one, since Equal and
// Below lend the tails of theirs.
#[tactic(auto, unfolding(crate::specs::Bit::bit))]
#[inline(always)]
pub(crate) fn convert(
    u: Shares,
    j: u32,
    words: &[u32; 3],
    list2: &mut [u32],
    list3: &mut [u32],
) -> Shares
    requires two { 3 ≤ length list2.old }
    requires three { 3 ≤ length list3.old }
    ensures shares { result ≡ (spec.bit (modulus 5) j).result u (tape_of_one words.now) }
    ensures sent { lists [] list2.new list3.new []
        ≡ with_fronts (lists [] list2.old list3.old []) ((spec.bit (modulus 5) j).received u (tape_of_one words.now)) }
{
    let [word_b, m12, word_b12] = *words;
    let v = bits_at(u, j);
    let b = low_bit(word_b);
    let b12 = low_bit(word_b12);
    let m13 = ring::sub(b ^ v.one, m12);
    let b13 = b ^ b12;
    let s23 = b12 ^ v.two;
    let s32 = b13 ^ v.three;
    list::put(list2, 0, &[m12, b12, s32]);
    list::put(list3, 0, &[m13, b13, s23]);
    chosen_shares(s23 ^ s32, m12, m13)
}

/// Ring shares of bit `j` of the word of which `u` are bit shares; of 0 if `j` is 32 or more. Specification: Bit.
///
/// Draws 3 words of miner 1's tape.
/// Sends 3 words to each of miners 2 and 3.
///
/// # Errors
/// `TapeSpent` if a tape has too few words left at `place`, `ListFull` if a list has too little room; then nothing is
/// drawn or written.
#[tactic(auto, using(crate::proofs::Laws::Lent::bit_performs), unfolding(crate::specs::Bit::bit))]
#[inline(always)]
pub fn bit(
    u: Shares,
    j: u32,
    place: Place,
    tapes: &Tapes,
    lists: &mut Lists,
) -> Result<Done, Shortage>
    ensures same { SameLists lists.old lists.new }
    ensures done { delivery_of (outcome place result) (lists_of lists.new)
        ≡ delivery place (perform (spec.bit (modulus 5) j) u place (tapes_of tapes.now)) (lists_of lists.old) }
{
    let Some((words, next)) = place.draw::<3>(Party::One, tapes.one) else {
        return Err(Shortage::TapeSpent);
    };
    if !lists.have_room(0, 3, 3, 0) {
        return Err(Shortage::ListFull);
    }
    Ok(Done {
        shares: convert(u, j, words, lists.two, lists.three),
        place: next,
    })
}
