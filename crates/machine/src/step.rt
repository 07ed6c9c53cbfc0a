//! One command, if refusal 4 does not apply to it.
ghost use Rattle.std.specs.Prelude.{◌≡◌, true, Ok};
ghost use Rattle.protocols.specs.Lent.{SameLists};
ghost use Rattle.machine.specs.Lent.{lent_lists_of, SameTables, sizes};
ghost use Rattle.machine.specs.Table.{code_named};
ghost use Rattle.machine.specs.Verdict.{is_sound};
ghost use Rattle.machine.specs.Command.{answer_of, command_outcome};
ghost use Rattle.machine.specs.Command as spec;

use super::answer::{Accepted, Form};
use super::code::Command;
use super::commands::{
    Add, AddConstant, Below, Bit, Bits, Equal, Multiply, Open, Reshare, Store, Subtract,
    TimesConstant,
};
use super::lent::{Sizes, Tables};
use super::operation::Operation;
use super::refusal::Refusal;
use super::{accept, judge};
use protocols::lent::{Lists, Tapes};
use protocols::place::Place;

// Refusal 4 does not apply.
#[inline(always)]
pub(crate) fn is_lent_soundly(
    place: Place,
    tables: &Tables,
    inputs: &[u32],
    tapes: &Tapes,
    lists: &Lists,
) -> bool
    ensures { result
        ≡ is_sound place (sizes (lent_lists_of tables.now inputs.now tapes.now lists.now)) tables.now.kinds.now }
{
    let sizes = Sizes::of(
        tables.one,
        tables.two,
        tables.three,
        tables.kinds,
        inputs,
        tapes,
        lists.one,
        lists.two,
        lists.three,
        lists.controller,
    );
    judge::is_sound(place, sizes, tables.kinds())
}

// The step of a known command: the tests for refusals 6 to 11, then its protocol.
#[inline(always)]
fn attempt<O: Operation>(
    c: Command,
    place: Place,
    tables: &mut Tables,
    inputs: &[u32],
    tapes: &Tapes,
    lists: &mut Lists,
) -> Result<Accepted, Refusal>
    requires sound { let l = lent_lists_of tables.old inputs.now tapes.now lists.old in
        is_sound place (sizes l) tables.old.kinds.now ≡ true }
    requires known { code_named c.code ≡ Ok O.code }
    ensures same_tables { SameTables tables.old tables.new }
    ensures same_lists { SameLists lists.old lists.new }
    ensures done { command_outcome (answer_of place result) (lent_lists_of tables.new inputs.now tapes.now lists.new)
        ≡ spec.command 5 c place (lent_lists_of tables.old inputs.now tapes.now lists.old) }
{
    judge::row_refusal(
        O::row(),
        c,
        place,
        tables.one.len(),
        inputs.len(),
        tables.kinds(),
    )?;
    accept::accept::<O>(c, place, tables, inputs, tapes, lists)
}

// The same, answered in the caller's form.
fn operation_step<O: Operation, F: Form>(
    c: Command,
    place: Place,
    tables: &mut Tables,
    inputs: &[u32],
    tapes: &Tapes,
    lists: &mut Lists,
) -> F
    requires sound { let l = lent_lists_of tables.old inputs.now tapes.now lists.old in
        is_sound place (sizes l) tables.old.kinds.now ≡ true }
    requires known { code_named c.code ≡ Ok O.code }
    ensures same_tables { SameTables tables.old tables.new }
    ensures same_lists { SameLists lists.old lists.new }
    ensures done { command_outcome (F.read place result) (lent_lists_of tables.new inputs.now tapes.now lists.new)
        ≡ spec.command 5 c place (lent_lists_of tables.old inputs.now tapes.now lists.old) }
{
    let answered = attempt::<O>(c, place, tables, inputs, tapes, lists);
    F::of(place, answered)
}

// Looks the command up by its code, or refuses with 5. Each code has an arm and so a copy of the step. In this order of
// arms, which changes no answer, a run takes the fewest instructions.
pub(crate) fn step<F: Form>(
    c: Command,
    place: Place,
    tables: &mut Tables,
    inputs: &[u32],
    tapes: &Tapes,
    lists: &mut Lists,
) -> F
    requires { let l = lent_lists_of tables.old inputs.now tapes.now lists.old in
        is_sound place (sizes l) tables.old.kinds.now ≡ true }
    ensures same_tables { SameTables tables.old tables.new }
    ensures same_lists { SameLists lists.old lists.new }
    ensures done { command_outcome (F.read place result) (lent_lists_of tables.new inputs.now tapes.now lists.new)
        ≡ spec.command 5 c place (lent_lists_of tables.old inputs.now tapes.now lists.old) }
{
    match c.code {
        12 => operation_step::<Below, F>(c, place, tables, inputs, tapes, lists),
        11 => operation_step::<Open, F>(c, place, tables, inputs, tapes, lists),
        10 => operation_step::<Equal, F>(c, place, tables, inputs, tapes, lists),
        9 => operation_step::<Bit, F>(c, place, tables, inputs, tapes, lists),
        8 => operation_step::<Bits, F>(c, place, tables, inputs, tapes, lists),
        7 => operation_step::<Reshare, F>(c, place, tables, inputs, tapes, lists),
        6 => operation_step::<Multiply, F>(c, place, tables, inputs, tapes, lists),
        5 => operation_step::<TimesConstant, F>(c, place, tables, inputs, tapes, lists),
        4 => operation_step::<AddConstant, F>(c, place, tables, inputs, tapes, lists),
        3 => operation_step::<Subtract, F>(c, place, tables, inputs, tapes, lists),
        2 => operation_step::<Add, F>(c, place, tables, inputs, tapes, lists),
        1 => operation_step::<Store, F>(c, place, tables, inputs, tapes, lists),
        _ => F::of(place, Err(Refusal::UnknownCode)),
    }
}
