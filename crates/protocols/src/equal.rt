//! Equal: 1 if two ring values are equal, else 0; Specification: Equal
ghost use Rattle.std.specs.Prelude.{◌≡◌, ◌+◌, ◌*◌, ◌/◌, ◌^◌, [], bit_and};
ghost use Rattle.protocols.specs.Word.{modulus, width};
ghost use Rattle.protocols.specs.Shares.{at, each, Operands, operands};
ghost use Rattle.protocols.specs.Local.{difference};
ghost use Rattle.protocols.specs.Place.{tapes, lists};
ghost use Rattle.protocols.specs.Protocol.{perform};
ghost use Rattle.protocols.specs.Outcome.{outcome, delivery_of, delivery, with_fronts};
ghost use Rattle.protocols.specs.Lent.{tapes_of, lists_of, SameLists};
ghost use Rattle.protocols.specs.Private.Lending.{HaveRoom, Block, tape_of_one, with_words_at};
ghost use Rattle.protocols.specs.Private.WordForm as word;
ghost use Rattle.protocols.specs.Equal as spec;
ghost use Rattle.protocols.specs.Private.Equal as private;

use super::fixed_lengths::FixedLengths;
use super::lent::{Lists, Tapes};
use super::masked::Round;
use super::outcome::{Done, Shortage};
use super::place::Place;
use super::shares::Shares;
use super::{bit, list, local, masked, ring};

/// What the miners hold before a fold round.
#[derive(Clone, Copy)]
pub struct FoldState {
    /// Bit shares of the word that is folded.
    pub p: Shares,
    /// The masks of `p` in this round.
    pub q: Shares,
}

// The heads of each round: the positions that become an 'and'.
static HEADS: [u32; 5] = [
    0x5555_5555,
    0x1111_1111,
    0x0101_0101,
    0x0001_0001,
    0x0000_0001,
];

// All other positions.
static OTHERS: [u32; 5] = [
    0xaaaa_aaaa,
    0xeeee_eeee,
    0xfefe_fefe,
    0xfffe_fffe,
    0xffff_fffe,
];

// Round k: the bits with which the heads are combined, each moved down to its head; 0 at the other positions.
fn to_heads(round: Round, x: u32) -> u32
    ensures { result ≡ bit_and (x / 2 ^ (2 ^ round.k)) (word.heads 5 round.k) }
{
    let stride = 1u32 << round.k;
    (x >> stride) & HEADS[round.k as usize]
}

// Round k: a word at the positions that are no heads; 0 at the heads.
fn others(round: Round, x: u32) -> u32
    ensures { result ≡ bit_and x (word.others 5 round.k) }
{
    x & OTHERS[round.k as usize]
}

// The same of each miner's word.
fn to_heads_each(round: Round, x: Shares) -> Shares
    ensures { result ≡ each (λ i. bit_and (at i x / 2 ^ (2 ^ round.k)) (word.heads 5 round.k)) }
{
    x.map(|x| to_heads(round, x))
}

// The same of each miner's word.
fn others_each(round: Round, x: Shares) -> Shares
    ensures { result ≡ each (λ i. bit_and (at i x) (word.others 5 round.k)) }
{
    x.map(|x| others(round, x))
}

// Round k of every miner on masked shares, with the masks of the next round; Specification: Fold rounds.
fn fold_round(round: Round, p: Shares, q: Shares) -> FoldState
    ensures { result ≡ spec.fold_round (width 5) round.k p q }
{
    let both = masked::and_shares(p, to_heads_each(round, p));
    FoldState {
        p: others_each(round, p).zip(both, masked::xor),
        q,
    }
}

// Bit shares of p, from ring shares d of u - v: p is all ones exactly if d is 0.
fn first_shares(d: Shares, r2: u32, r3: u32) -> Shares
    ensures { result ≡ spec.first_shares (modulus 5) d r2 r3 }
{
    Shares::from([
        0xffff_ffff,
        ring::add(d.two, r2),
        ring::sub(0, ring::add(d.three, r3)),
    ])
}

// Compares d, the difference of the operands, with 0: sends its words and the first round's masks.
#[tactic(auto, unfolding(crate::specs::Equal::compare))]
fn compare(
    d: Shares,
    words: &[u32; 1],
    q: Shares,
    one: &mut [u32],
    two: &mut [u32],
    three: &mut [u32],
) -> FoldState
    requires { HaveRoom 11 12 12 (lists one.old two.old three.old []) }
    ensures held { (x : Operands) → d ≡ difference (modulus 5) x
        → result ≡ private.state_before_rounds 5 x (tape_of_one words.now) q }
    ensures sent { (x : Operands) → d ≡ difference (modulus 5) x
        → lists one.new two.new three.new []
        ≡ with_fronts (lists one.old two.old three.old []) (private.sent_before_rounds 5 x (tape_of_one words.now) q) }
{
    let [r2] = *words;
    let r3 = ring::sub(d.one, r2);
    list::put(one, 0, &[q.three]);
    list::put(two, 0, &[r2, q.one]);
    list::put(three, 0, &[r3, q.two]);
    FoldState {
        p: first_shares(d, r2, r3),
        q,
    }
}

// Round k: sends the masked shares and the masks of the next round, and gives what the miners then hold.
fn round(
    round: Round,
    held: FoldState,
    q: Shares,
    one: &mut [u32],
    two: &mut [u32],
    three: &mut [u32],
) -> FoldState
    requires { HaveRoom 11 12 12 (lists one.old two.old three.old []) }
    ensures held { result ≡ spec.after_round (width 5) round.k held q }
    ensures sent { lists one.new two.new three.new []
        ≡ with_words_at (private.received_before round.k) (lists one.old two.old three.old [])
        (spec.sent_in_round held q) }
{
    let p = masked::masked_shares(held.p, held.q);
    let sent = 2 * round.k as usize;
    list::pass(one, two, three, 1 + sent, 2 + sent, &[p, q]);
    fold_round(round, p, q)
}

// The comparison and the fold rounds on the drawn words: one of miner 1, then a mask of each miner for the comparison
// and for each round.
#[inline(always)]
fn folds(d: Shares, words: Tapes, one: &mut [u32], two: &mut [u32], three: &mut [u32]) -> Shares
    requires block { Block 7 6 6 (tapes_of words) }
    requires room { HaveRoom 11 12 12 (lists one.old two.old three.old []) }
    ensures shares { (x : Operands) → d ≡ difference (modulus 5) x
        → result ≡ ((spec.folds 5 5).result x (tapes_of words.entry)).p }
    ensures sent { (x : Operands) → d ≡ difference (modulus 5) x
        → lists one.new two.new three.new []
        ≡ with_fronts (lists one.old two.old three.old []) ((spec.folds 5 5).received x (tapes_of words.entry)) }
{
    let held = compare(d, &[words.one[0]], words.at(1, 0), one, two, three);
    let held = round(Round { k: 0 }, held, words.at(1, 1), one, two, three);
    let held = round(Round { k: 1 }, held, words.at(1, 2), one, two, three);
    let held = round(Round { k: 2 }, held, words.at(1, 3), one, two, three);
    let held = round(Round { k: 3 }, held, words.at(1, 4), one, two, three);
    let held = round(Round { k: 4 }, held, words.at(1, 5), one, two, three);
    held.p
}

// Equal, as a protocol of fixed lengths; it computes on the difference of the operands, which is half as many words.
#[derive(Clone, Copy)]
struct ZeroTest {
    u: Shares,
    v: Shares,
}

impl FixedLengths<10, 6, 11, 15> for ZeroTest {
    ghost Operands = { Operands };

    ghost operands = { λ s. operands s.u s.v };

    ghost protocol = { spec.equal 5 };

    ghost input_of = { difference (modulus 5) };

    #[inline(always)]
    fn input(&self) -> Shares {
        local::difference(self.u, self.v)
    }

    #[inline(never)]
    fn compute(
        d: Shares,
        tape1: &[u32; 10],
        tape2: &[u32; 6],
        tape3: &[u32; 6],
        one: &mut [u32; 11],
        two: &mut [u32; 15],
        three: &mut [u32; 15],
    ) -> Shares {
        let words = Tapes {
            provider: &[],
            one: &tape1[..7],
            two: tape2,
            three: tape3,
        };
        let word = folds(d, words, one, two, three);
        let bit_words = [tape1[7], tape1[8], tape1[9]];
        bit::convert(word, 0, &bit_words, &mut two[12..], &mut three[12..])
    }
}

/// Ring shares of 1 if `u` and `v` are ring shares of the same word, else of 0. Specification: Equal.
///
/// Draws 10 words of miner 1's tape and 6 of each other miner's.
/// Sends 11 words to miner 1 and 15 to each other miner.
///
/// # Errors
/// `TapeSpent` if a tape has too few words left at `place`, `ListFull` if a list has too little room; then nothing is
/// drawn or written.
#[inline(always)]
pub fn equal(
    u: Shares,
    v: Shares,
    place: Place,
    tapes: &Tapes,
    lists: &mut Lists,
) -> Result<Done, Shortage>
    ensures same { SameLists lists.old lists.new }
    ensures done { delivery_of (outcome place result) (lists_of lists.new)
        ≡ delivery place (perform (spec.equal 5) (operands u v) place (tapes_of tapes.now)) (lists_of lists.old) }
{
    ZeroTest { u, v }.deliver(place, tapes, lists)
}
