//! The call for one command; Specification: Accepted commands.
ghost use Rattle.std.specs.Prelude.{◌≡◌};
ghost use Rattle.protocols.specs.Lent.{SameLists};
ghost use Rattle.machine.specs.Table as table;
ghost use Rattle.machine.specs.Lent.{lent_lists_of, SameTables};
ghost use Rattle.machine.specs.Command.{command_outcome};
ghost use Rattle.machine.specs.Command as spec;

use machine::answer::Answer;
use machine::code::Command;
use machine::command;
use machine::lent::Tables;
use protocols::lent::{Lists, Tapes};
use protocols::place::Place;

/// Performs the command `code`, `a`, `b`; Specification: Table of commands.
///
/// `place` is the place record that the command before it answered, at first all 0. Lent are three share tables and the
/// kind list, of one length, and the inputs, the four tapes and the four received lists, each of any length in words;
/// Specification: Lent lists.
///
/// The answer's number is 0 if the command is accepted, else that of the refusal, 4 to 13. An accepted command writes
/// the entry of its new handle, if it makes a value, and each party's received words behind those that are there. It
/// answers the next place record, and for an open the opened word, else 0. A refused command writes nothing and
/// answers the same place record.
#[unsafe(no_mangle)]
pub extern "C" fn dinglefork_command(
    code: u32,
    a: u32,
    b: u32,
    place: &Place,
    tables: &mut Tables,
    inputs: &[u32],
    tapes: &Tapes,
    lists: &mut Lists,
) -> Answer
    ensures same_tables { SameTables tables.old tables.new }
    ensures same_lists { SameLists lists.old lists.new }
    ensures done { command_outcome result (lent_lists_of tables.new inputs.now tapes.now lists.new)
        ≡ spec.command 5 (table.command_of code a b) place.now
        (lent_lists_of tables.old inputs.now tapes.now lists.old) }
{
    command::command(Command { code, a, b }, *place, tables, inputs, tapes, lists)
}
