//! The run of a sheet's commands.
ghost use Rattle.std.specs.Prelude.{◌≡◌, ◌+◌, ◌*◌, ◌≤◌};
ghost use Rattle.protocols.specs.Lent.{SameLists};
ghost use Rattle.machine.specs.Lent.{SameTables};
ghost use Rattle.session.specs.Contents.{sheet_of};
ghost use Rattle.session.specs.Contents as spec;
ghost use Rattle.session.specs.Session.{lent_state, session_outcome, outcome_of_run, run_of};
ghost use Rattle.session.specs.Private.Bodies.{Bodies};

use super::answer::SessionAnswer;
use machine::lent::Tables;
use machine::run;
use protocols::lent::{Lists, Tapes};
use protocols::place::Place;

// Body k of a file's words; Specification: Contents.
fn body(words: &[u32], k: usize) -> &[u32]
    requires index { k ≤ 5 }
    requires bodies { Bodies words.now }
    ensures { result.now ≡ spec.body words.now k }
{
    let start = words[2 * k] as usize;
    let end = start + words[2 * k + 1] as usize;
    &words[start..end]
}

// Runs the commands of a file's words, on the inputs and tapes of these words, up to the first refusal.
pub(crate) fn run_words(words: &[u32], tables: &mut Tables, lists: &mut Lists) -> SessionAnswer
    requires { Bodies words.now }
    ensures same_tables { SameTables tables.old tables.new }
    ensures same_lists { SameLists lists.old lists.new }
    ensures outcome { session_outcome result words.now (lent_state tables.new lists.new)
        ≡ outcome_of_run (run_of (sheet_of words.now) (lent_state tables.old lists.old)) words.now }
{
    let tapes = Tapes {
        provider: body(words, 2),
        one: body(words, 3),
        two: body(words, 4),
        three: body(words, 5),
    };
    let run = run::run(
        body(words, 0),
        Place::default(),
        tables,
        body(words, 1),
        &tapes,
        lists,
    );
    SessionAnswer {
        done: run.done,
        place: run.last.place,
        number: run.last.number,
    }
}
