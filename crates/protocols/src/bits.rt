//! Bits: a ring value as a bit word; Specification: Bits
ghost use Rattle.std.specs.Prelude.{◌≡◌, ◌+◌, ◌*◌, [], bit_and};
ghost use Rattle.protocols.specs.Word.{modulus, width};
ghost use Rattle.protocols.specs.Shares.{at, each};
ghost use Rattle.protocols.specs.Place.{tapes, lists};
ghost use Rattle.protocols.specs.Protocol.{perform};
ghost use Rattle.protocols.specs.Outcome.{outcome, delivery_of, delivery, with_fronts};
ghost use Rattle.protocols.specs.Lent.{tapes_of, lists_of, SameLists};
ghost use Rattle.protocols.specs.Private.Lending.{HaveRoom, Block, tape_of_one, with_words_at};
ghost use Rattle.protocols.specs.Private.WordForm as word;
ghost use Rattle.protocols.specs.Bits as spec;
ghost use Rattle.protocols.specs.Private.Bits as private;
ghost use Rattle.protocols.specs.declared.shares.Shares as value;

use super::fixed_lengths::FixedLengths;
use super::lent::{Lists, Tapes};
use super::masked::Round;
use super::outcome::{Done, Shortage};
use super::place::Place;
use super::shares::Shares;
use super::{list, masked, ring};

/// What miners 2 and 3 have after the dealing, each its own: a masked share, and a bit share of the random word r.
#[derive(Clone, Copy)]
pub struct Dealing {
    /// Miner 2's masked share, which it sends to miner 3.
    pub v2: u32,
    /// Miner 3's masked share, which it sends to miner 2.
    pub v3: u32,
    /// Miner 2's bit share of r.
    pub bar2: u32,
    /// Miner 3's bit share of r.
    pub bar3: u32,
}

/// What the miners hold before a carry round.
#[derive(Clone, Copy)]
pub struct CarryState {
    /// Bit shares of the positions that pass a carry on.
    pub p: Shares,
    /// Bit shares of the positions at which a carry arises.
    pub s: Shares,
    /// The masks of `p` in this round.
    pub q: Shares,
    /// The masks of `s` in this round.
    pub t: Shares,
    /// `p` as it was before the first round, for the result.
    pub base: Shares,
}

// The sources of each round.
static SOURCES: [u32; 5] = [
    0x5555_5555,
    0x2222_2222,
    0x0808_0808,
    0x0080_0080,
    0x0000_8000,
];

// For each round k the positions whose bit k is clear.
static CLEAR: [u32; 5] = [
    0x5555_5555,
    0x3333_3333,
    0x0f0f_0f0f,
    0x00ff_00ff,
    0x0000_ffff,
];

// Round k: the bit of each source, at every position that has this source.
fn spread(round: Round, x: u32) -> u32
    ensures { result ≡ word.spread 5 round.k x }
{
    let t = x & SOURCES[round.k as usize];
    ((t << (1u32 << round.k)) - t) << 1
}

// Round k: a word at the positions whose bit k is clear, 0 elsewhere.
fn clear(round: Round, x: u32) -> u32
    ensures { result ≡ bit_and x (word.clear 5 round.k) }
{
    x & CLEAR[round.k as usize]
}

// The same of each miner's word.
fn spread_each(round: Round, x: Shares) -> Shares
    ensures { result ≡ each (λ i. word.spread 5 round.k (at i x)) }
{
    x.map(|x| spread(round, x))
}

// The same of each miner's word.
fn clear_each(round: Round, x: Shares) -> Shares
    ensures { result ≡ each (λ i. bit_and (at i x) (word.clear 5 round.k)) }
{
    x.map(|x| clear(round, x))
}

// Round k of every miner on masked shares, with the masks of the next round; Specification: Carry rounds.
fn carry_round(round: Round, p: Shares, s: Shares, q: Shares, t: Shares, base: Shares) -> CarryState
    ensures { result ≡ spec.carry_round (width 5) round.k p s q t base }
{
    let carry = masked::and_shares(p, spread_each(round, s));
    let both = masked::and_shares(p, spread_each(round, p));
    CarryState {
        p: clear_each(round, p).zip(both, masked::xor),
        s: s.zip(carry, masked::xor),
        q,
        t,
        base,
    }
}

// What the miners hold before the first round, with its masks.
fn first_state(dealing: Dealing, q: Shares, t: Shares) -> CarryState
    ensures { result ≡ spec.first_state (modulus 5) dealing q t }
{
    let Dealing { v2, v3, bar2, bar3 } = dealing;
    let v = ring::add(v2, v3);
    let p = Shares::from([0, v ^ bar2, bar3]);
    CarryState {
        p,
        s: Shares::from([0, v & bar2, v & bar3]),
        q,
        t,
        base: p,
    }
}

// The result: s shifted up by one bit, xor p as it was before the rounds.
#[tactic(auto, unfolding(crate::specs::Word::shift_up))]
fn sum_bits(h: CarryState) -> Shares
    ensures { result ≡ spec.sum_bits (width 5) h }
{
    h.s.zip(h.base, |s, base| (s << 1) ^ base)
}

// The dealing and the exchange, with the first round's masks.
#[tactic(auto, unfolding(crate::specs::Bits::deal))]
fn deal(
    u: Shares,
    words: &[u32; 3],
    q: Shares,
    t: Shares,
    one: &mut [u32],
    two: &mut [u32],
    three: &mut [u32],
) -> CarryState
    requires { HaveRoom 22 25 25 (lists one.old two.old three.old []) }
    ensures held { result ≡ private.state_before_rounds 5 u (tape_of_one words.now) q t }
    ensures sent { lists one.new two.new three.new []
        ≡ with_fronts (lists one.old two.old three.old [])
        (private.sent_before_rounds 5 u (tape_of_one words.now) q t) }
{
    let [r, r2, bar2] = *words;
    let r3 = ring::sub(ring::sub(u.one, r), r2);
    let bar3 = r ^ bar2;
    let dealing = Dealing {
        v2: ring::add(u.two, r2),
        v3: ring::add(u.three, r3),
        bar2,
        bar3,
    };
    list::put(one, 0, &[q.three, t.three]);
    list::put(two, 0, &[r2, bar2, q.one, t.one, dealing.v3]);
    list::put(three, 0, &[r3, bar3, q.two, t.two, dealing.v2]);
    first_state(dealing, q, t)
}

// Round k: sends the masked shares and the masks of the next round, and gives what the miners then hold.
#[inline(always)]
fn round(
    round: Round,
    held: CarryState,
    q: Shares,
    t: Shares,
    one: &mut [u32],
    two: &mut [u32],
    three: &mut [u32],
) -> CarryState
    requires { HaveRoom 22 25 25 (lists one.old two.old three.old []) }
    ensures held { result ≡ spec.after_round (width 5) round.k held q t }
    ensures sent { lists one.new two.new three.new []
        ≡ with_words_at (private.received_before round.k) (lists one.old two.old three.old [])
        (spec.sent_in_round held q t) }
{
    let p = masked::masked_shares(held.p, held.q);
    let s = masked::masked_shares(held.s, held.t);
    let sent = 4 * round.k as usize;
    list::pass(one, two, three, 2 + sent, 5 + sent, &[p, s, q, t]);
    carry_round(round, p, s, q, t, held.base)
}

// Bits on the drawn words: three of miner 1, then the masks q, t of each miner for the exchange and for each round.
// The rounds are written out, so that the entries of `SOURCES` and `CLEAR` and the indices of the words are constants.
#[inline(always)]
pub(crate) fn rounds(
    u: Shares,
    words: Tapes,
    one: &mut [u32],
    two: &mut [u32],
    three: &mut [u32],
) -> Shares
    requires block { Block 15 12 12 (tapes_of words) }
    requires room { HaveRoom 22 25 25 (lists one.old two.old three.old []) }
    ensures shares { result ≡ (spec.bits 5).result u (tapes_of words.entry) }
    ensures sent { lists one.new two.new three.new []
        ≡ with_fronts (lists one.old two.old three.old []) ((spec.bits 5).received u (tapes_of words.entry)) }
{
    let dealer = [words.one[0], words.one[1], words.one[2]];
    let (q, t) = (words.at(3, 0), words.at(3, 1));
    let held = deal(u, &dealer, q, t, one, two, three);
    let (q, t) = (words.at(3, 2), words.at(3, 3));
    let held = round(Round { k: 0 }, held, q, t, one, two, three);
    let (q, t) = (words.at(3, 4), words.at(3, 5));
    let held = round(Round { k: 1 }, held, q, t, one, two, three);
    let (q, t) = (words.at(3, 6), words.at(3, 7));
    let held = round(Round { k: 2 }, held, q, t, one, two, three);
    let (q, t) = (words.at(3, 8), words.at(3, 9));
    let held = round(Round { k: 3 }, held, q, t, one, two, three);
    let (q, t) = (words.at(3, 10), words.at(3, 11));
    let held = round(Round { k: 4 }, held, q, t, one, two, three);
    sum_bits(held)
}

// Bits, as a protocol of fixed lengths. `compute` is not inlined: it is too long for the loop over the commands.
#[derive(Clone, Copy)]
struct Decomposition {
    u: Shares,
}

impl FixedLengths<15, 12, 22, 25> for Decomposition {
    ghost Operands = { value.Shares };

    ghost operands = { λ s. s.u };

    ghost protocol = { spec.bits 5 };

    ghost input_of = { λ u. u };

    #[inline(always)]
    fn input(&self) -> Shares {
        self.u
    }

    #[inline(never)]
    fn compute(
        u: Shares,
        tape1: &[u32; 15],
        tape2: &[u32; 12],
        tape3: &[u32; 12],
        one: &mut [u32; 22],
        two: &mut [u32; 25],
        three: &mut [u32; 25],
    ) -> Shares {
        let words = Tapes {
            provider: &[],
            one: tape1,
            two: tape2,
            three: tape3,
        };
        rounds(u, words, one, two, three)
    }
}

/// Bit shares of the word of which `u` are ring shares. Specification: Bits.
///
/// Draws 15 words of miner 1's tape and 12 of each other miner's.
/// Sends 22 words to miner 1 and 25 to each other miner.
///
/// # Errors
/// `TapeSpent` if a tape has too few words left at `place`, `ListFull` if a list has too little room; then nothing is
/// drawn or written.
#[inline(always)]
pub fn bits(u: Shares, place: Place, tapes: &Tapes, lists: &mut Lists) -> Result<Done, Shortage>
    ensures same { SameLists lists.old lists.new }
    ensures done { delivery_of (outcome place result) (lists_of lists.new)
        ≡ delivery place (perform (spec.bits 5) u place (tapes_of tapes.now)) (lists_of lists.old) }
{
    Decomposition { u }.deliver(place, tapes, lists)
}
