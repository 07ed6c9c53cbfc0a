//! What each command has: its row of the table, and its protocol; Specification: Table of commands.
ghost use Rattle.std.specs.Prelude.{◌≡◌};
ghost use Rattle.protocols.specs.Protocol.{perform};
ghost use Rattle.protocols.specs.Outcome.{outcome, delivery_of, delivery};
ghost use Rattle.protocols.specs.Lent.{tapes_of, lists_of, SameLists};
ghost use Rattle.machine.specs.Table.{Code};
ghost use Rattle.machine.specs.Table as table;
ghost use Rattle.machine.specs.Steps.{protocol};

use super::arguments::Arguments;
use super::row::Row;
use protocols::lent::{Lists, Tapes};
use protocols::outcome::{Done, Shortage};
use protocols::place::Place;

/// A command. Each of the twelve is a type in `commands`, and the step is compiled for each, with only the tests, reads
/// and writes that its row needs.
pub trait Operation {
    /// Which command it is.
    ghost code: { Code };

    /// Its row of the table.
    fn row() -> Row
        ensures { result ≡ table.row 5 code };

    /// Plays its protocol, on the field `b`, the `arguments` that its row names and the next words of the tapes, and
    /// writes the words that each party receives to the front of its list. Answers the shares of the new value (of
    /// open, those for the controller) and the place with the drawn words counted. If a tape has too few words, or else
    /// a list too little room, it answers a `Shortage` and writes nothing.
    fn play(
        b: u32,
        arguments: Arguments,
        place: Place,
        tapes: &Tapes,
        lists: &mut Lists,
    ) -> Result<Done, Shortage>
        ensures same { SameLists lists.old lists.new }
        ensures done { delivery_of (outcome place result) (lists_of lists.new)
            ≡ delivery place (perform (protocol 5 code b) arguments place (tapes_of tapes.now)) (lists_of lists.old) };
}
