//! One command; Specification: Accepted commands, Specification: Refused commands.
ghost use Rattle.std.specs.Prelude.{◌≡◌};
ghost use Rattle.protocols.specs.Lent.{SameLists};
ghost use Rattle.machine.specs.Lent.{lent_lists_of, SameTables};
ghost use Rattle.machine.specs.Command.{command_outcome};
ghost use Rattle.machine.specs.Command as spec;

use super::answer::{Answer, Form};
use super::code::Command;
use super::lent::Tables;
use super::refusal::Refusal;
use super::step;
use protocols::lent::{Lists, Tapes};
use protocols::place::Place;

/// Does one command from the place record `place`. It answers 0, the next place record and the word that is opened, or
/// the number of a refusal, 4 to 13.
///
/// If the command is accepted, it writes the new value, if there is one, to the next entries of `tables`, and the words
/// that each party receives into its list of `lists`, behind those that `place` counts: as many as the command's `Row`
/// has; Specification: Accepted commands.
///
/// If it is refused, it writes nothing and answers `place`; Specification: Refused commands. No list needs a certain
/// length or content: if lengths, kinds and `place` do not fit, the refusal is 4.
pub fn command(
    c: Command,
    place: Place,
    tables: &mut Tables,
    inputs: &[u32],
    tapes: &Tapes,
    lists: &mut Lists,
) -> Answer
    ensures same_tables { SameTables tables.old tables.new }
    ensures same_lists { SameLists lists.old lists.new }
    ensures done { command_outcome result (lent_lists_of tables.new inputs.now tapes.now lists.new)
        ≡ spec.command 5 c place (lent_lists_of tables.old inputs.now tapes.now lists.old) }
{
    let unsound = !step::is_lent_soundly(place, tables, inputs, tapes, lists);
    if unsound {
        return Answer::of(place, Err(Refusal::LentUnsoundly));
    }
    step::step::<Answer>(c, place, tables, inputs, tapes, lists)
}
