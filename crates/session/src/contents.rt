//! The refusals 1 to 4 of a session, before anything is written; Specification: Table of refusals.
ghost use Rattle.std.specs.Prelude.{◌≡◌, true, false, ◌%◌, ◌&&◌, nat_eq, take};
ghost use Rattle.std.specs.Prelude.{IfNone, IfSome, MatchResult, IsTrue};
ghost use Rattle.machine.specs.Refusal.{result_number};
ghost use Rattle.session.specs.Words.{words_of};
ghost use Rattle.session.specs.Contents.{limits, count_of};
ghost use Rattle.session.specs.Contents as spec;
ghost use Rattle.session.specs.Session.{is_whole, first_refusal};

use super::words::decode;
use machine::refusal::Refusal;

// The most words of each body; Specification: Limits.
const LIMITS: [u32; 6] = [384, 128, 256, 2304, 2304, 2304];

// The twelve words of the contents, unless refusal 1 applies.
#[tactic(auto, using(crate::proofs::Laws::Contents::contents_read))]
fn contents_of(file: &[u8]) -> Option<[u32; 12]>
    ensures none { IfNone result (is_whole file.now ≡ false) }
    ensures some { IfSome result (λ _. is_whole file.now ≡ true) }
    ensures words { IfSome result (λ w. w ≡ take 12 (words_of file.now)) }
{
    if file.len() % 4 != 0 {
        return None;
    }
    let bytes = file.first_chunk::<48>()?;
    let mut contents = [0; 12];
    decode(bytes, &mut contents);
    Some(contents)
}

// Whether each body starts where the one before it ends, and the last one ends the file; Specification: Contents.
// The sums are of 64 bits and cannot wrap.
fn is_chained(contents: &[u32; 12], end: usize) -> bool
    ensures { result ≡ spec.is_chained 12 contents.now end }
{
    let mut at: usize = 12;
    let (pairs, _) = contents.as_chunks::<2>();
    for [start, count] in pairs {
        if *start as usize != at {
            return false;
        }
        at += *count as usize;
    }
    at == end
}

// Whether no body is over its limit.
fn is_within_limits(contents: &[u32; 12]) -> bool
    ensures { result ≡ spec.is_within_limits limits contents.now }
{
    let (pairs, _) = contents.as_chunks::<2>();
    LIMITS
        .iter()
        .zip(pairs)
        .all(|(most, [_, count])| count <= most)
}

// Whether no body is over its limit, and the count of command words is a multiple of 3.
fn has_legal_counts(contents: &[u32; 12]) -> bool
    ensures { result ≡ (spec.is_within_limits limits contents.now && nat_eq (count_of contents.now 0 % 3) 0) }
{
    is_within_limits(contents) && contents[1] % 3 == 0
}

// Ok if the test holds, else the refusal.
fn require(holds: bool, refusal: Refusal) -> Result<(), Refusal>
    ensures { MatchResult result (λ _. IsTrue holds) (λ r. (holds ≡ false) × (r ≡ refusal)) }
{
    if holds { Ok(()) } else { Err(refusal) }
}

// The lowest of the refusals 1 to 4 that applies; `lent` is the test of 4; Specification: Order of refusals.
#[tactic(auto, using(crate::proofs::Laws::Contents::commands_count), unfolding(crate::specs::Session::first_refusal))]
pub(crate) fn validate(file: &[u8], lent: bool) -> Result<(), Refusal>
    ensures { result_number result ≡ first_refusal file.now lent }
{
    let contents = contents_of(file).ok_or(Refusal::NotWhole)?;
    require(
        is_chained(&contents, file.len() / 4),
        Refusal::ContentsBroken,
    )?;
    require(has_legal_counts(&contents), Refusal::OverLimit)?;
    require(lent, Refusal::LentUnsoundly)
}
