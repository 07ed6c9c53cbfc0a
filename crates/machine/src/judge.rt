//! The tests for the refusals 4 and 6 to 11 of a command, which read no share, input, tape or received list;
//! Specification: Table of refusals. Those for 12 and 13 are in the protocols.
ghost use Rattle.std.specs.Prelude.{◌≡◌, ◌≤◌, length, nat_le, nat_lt, nat_eq, true};
ghost use Rattle.protocols.specs.Word.{modulus, sub};
ghost use Rattle.protocols.specs.Place.{count, every_party};
ghost use Rattle.protocols.specs.Counts.{count_for};
ghost use Rattle.machine.specs.Table.{kind_number};
ghost use Rattle.machine.specs.Lent.{entry};
ghost use Rattle.machine.specs.Verdict.{same_length, is_within, is_kind, are_kinds, every_receiver, is_sound};
ghost use Rattle.machine.specs.Private.Accept.{IfHandle};
ghost use Rattle.machine.specs.Verdict as spec;

use super::code::Command;
use super::kind::Kind;
use super::lent::Sizes;
use super::refusal::Refusal;
use super::row::{Row, Use};
use protocols::place::{Drawn, Place, Received};
use protocols::ring;

// ---- refusal 4

// The share tables are as long as the kind list.
fn same_length(z: Sizes) -> bool
    ensures { result ≡ same_length z }
{
    (z.one == z.kinds) & (z.two == z.kinds) & (z.three == z.kinds)
}

// No count of drawn words in a is over that in b.
fn at_most_drawn(a: Drawn, b: Drawn) -> bool
    ensures { result ≡ every_party (λ i. nat_le (count i a) (count i b)) }
{
    (a.provider <= b.provider) & (a.one <= b.one) & (a.two <= b.two) & (a.three <= b.three)
}

// No count of received words in a is over that in b.
fn at_most_received(a: Received, b: Received) -> bool
    ensures { result ≡ every_receiver (λ i. nat_le (count_for i a) (count_for i b)) }
{
    (a.one <= b.one) & (a.two <= b.two) & (a.three <= b.three) & (a.controller <= b.controller)
}

// No count of the place record is over the length of its list.
fn within_lists(p: Place, z: Sizes) -> bool
    ensures { result ≡ is_within p z }
{
    (p.handles <= z.one)
        & (p.inputs <= z.inputs)
        & at_most_drawn(p.drawn, z.tapes)
        & at_most_received(p.received, z.received)
}

// The kind less 1: it is below 2 exactly if the kind is 1 or 2. Two comparisons instead take half as long again.
#[tactic(auto, using(crate::proofs::Laws::KindTest::kind_less_one))]
fn less_one(kind: u32) -> u32
    ensures difference { result ≡ sub (modulus 5) kind 1 }
    ensures small { nat_lt result 2 ≡ is_kind kind }
{
    ring::sub(kind, 1)
}

// All words are 1 or 2. The loop has no early exit, so that the compiler can test several words at once.
fn are_kinds(kinds: &[u32]) -> bool
    ensures { result ≡ are_kinds kinds.now }
{
    let mut seen = 0;
    for kind in kinds {
        seen |= less_one(*kind);
    }
    seen < 2
}

// Refusal 4 does not apply.
pub(crate) fn is_sound(p: Place, z: Sizes, kinds: &[u32]) -> bool
    ensures { result ≡ is_sound p z kinds.now }
{
    let filled = &kinds[..p.handles.min(kinds.len())];
    same_length(z) && within_lists(p, z) && are_kinds(filled)
}

// ---- refusals 6 to 11: what a command's row asks of its fields, the tables and the inputs

// 6: an unused field is 0.
#[inline(always)]
fn is_zero_if_unused(field: Use, word: u32) -> bool
    ensures { result ≡ spec.meets field (nat_eq word 0) true true }
{
    match field {
        Use::Unused => word == 0,
        _ => true,
    }
}

// 7: a handle is at least 1 and filled. 0 less 1 wraps to more than any count.
#[inline(always)]
fn is_filled_if_handle(field: Use, p: Place, h: u32) -> bool
    ensures { result ≡ spec.meets field true (spec.is_filled p h) true }
{
    match field {
        Use::Handle => (h as usize).wrapping_sub(1) < p.handles,
        _ => true,
    }
}

// 8: a filled handle has the kind that the command takes.
#[inline(always)]
fn is_of_kind_if_handle(field: Use, kinds: &[u32], h: u32, kind: Kind) -> bool
    requires counted { IfHandle field (1 ≤ h) }
    requires within { IfHandle field (h ≤ length kinds.now) }
    ensures { result ≡ spec.meets field true (nat_eq (entry kinds.now h) (kind_number kind)) true }
{
    match field {
        Use::Handle => kinds[h as usize - 1] == u32::from(kind),
        _ => true,
    }
}

// 9: a bit position is under 32.
#[inline(always)]
fn is_in_word_if_position(field: Use, word: u32) -> bool
    ensures { result ≡ spec.meets field true true (nat_lt word 32) }
{
    match field {
        Use::Position => word < 32,
        _ => true,
    }
}

// 10: the tables have an entry left for a new value.
#[inline(always)]
fn tables_have(x: Row, p: Place, entries: usize) -> bool
    ensures { result ≡ spec.tables_have x p entries }
{
    x.values <= entries.saturating_sub(p.handles)
}

// 11: an input is left for store.
#[inline(always)]
fn inputs_have(x: Row, p: Place, inputs: usize) -> bool
    ensures { result ≡ spec.inputs_have x p inputs }
{
    x.inputs <= inputs.saturating_sub(p.inputs)
}

// The lowest of the refusals 6 to 11 that applies, if any; Specification: Order of refusals. It is given how many
// entries and inputs there are, and so sees none of them.
#[inline(always)]
pub(crate) fn row_refusal(
    x: Row,
    c: Command,
    p: Place,
    entries: usize,
    inputs: usize,
    kinds: &[u32],
) -> Result<(), Refusal>
    requires { p.handles ≤ length kinds.now }
    ensures { result ≡ spec.row_checks 5 x c p entries inputs kinds.now }
{
    if !(is_zero_if_unused(x.a, c.a) & is_zero_if_unused(x.b, c.b)) {
        return Err(Refusal::FieldNotZero);
    }
    if !(is_filled_if_handle(x.a, p, c.a) && is_filled_if_handle(x.b, p, c.b)) {
        return Err(Refusal::HandleNotFilled);
    }
    if !(is_of_kind_if_handle(x.a, kinds, c.a, x.operands)
        & is_of_kind_if_handle(x.b, kinds, c.b, x.operands))
    {
        return Err(Refusal::WrongKind);
    }
    if !(is_in_word_if_position(x.a, c.a) & is_in_word_if_position(x.b, c.b)) {
        return Err(Refusal::PositionOutside);
    }
    if !tables_have(x, p, entries) {
        return Err(Refusal::TablesFull);
    }
    if !inputs_have(x, p, inputs) {
        return Err(Refusal::InputsUsed);
    }
    Ok(())
}
