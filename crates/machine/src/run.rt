//! A run up to the first refusal; Specification: Runs.
ghost use Rattle.std.specs.Prelude.{◌≡◌, true, cond, nat_lt};
ghost use Rattle.protocols.specs.Lent.{SameLists};
ghost use Rattle.machine.specs.Lent.{lent_lists_of, SameTables, sizes};
ghost use Rattle.machine.specs.Verdict.{is_sound};
ghost use Rattle.machine.specs.Command.{answer};
ghost use Rattle.machine.specs.Run.{commands_of, run_to_refusal, run_outcome, run_outcome_of};

use super::answer::{Accepted, Answer, Form, Run};
use super::code::Command;
use super::lent::Tables;
use super::refusal::Refusal;
use super::step;
use protocols::lent::{Lists, Tapes};
use protocols::place::Place;

// What a run answers if refusal 4 applies: it refuses the first command, if there is one.
fn refuse_first(words: usize, start: Place) -> Run
    ensures done { result.done ≡ 0 }
    ensures last { result.last ≡ answer (cond (nat_lt words 3) 0 4) start 0 }
{
    let answered = if words < 3 {
        Ok(Accepted {
            place: start,
            opened: 0,
        })
    } else {
        Err(Refusal::LentUnsoundly)
    };
    Run {
        done: 0,
        last: Answer::of(start, answered),
    }
}

// A run if refusal 4 does not apply. It then applies to no later command, and is not tested again.
fn run_soundly(
    commands: &[u32],
    start: Place,
    tables: &mut Tables,
    inputs: &[u32],
    tapes: &Tapes,
    lists: &mut Lists,
) -> Run
    requires { let l = lent_lists_of tables.old inputs.now tapes.now lists.old in
        is_sound start (sizes l) tables.old.kinds.now ≡ true }
    ensures same_tables { SameTables tables.old tables.new }
    ensures same_lists { SameLists lists.old lists.new }
    ensures done { let l = lent_lists_of tables.old inputs.now tapes.now lists.old in
        run_outcome result (lent_lists_of tables.new inputs.now tapes.now lists.new)
        ≡ run_outcome_of start (run_to_refusal 5 (commands_of commands.now) start l) }
{
    let mut last = Accepted {
        place: start,
        opened: 0,
    };
    let (each, _) = commands.as_chunks::<3>();
    for (done, words) in each.iter().enumerate() {
        let [code, a, b] = *words;
        let command = Command { code, a, b };
        let answered: Result<Accepted, Refusal> = step::step(
            command, last.place, tables, inputs, tapes, lists,
        );
        let Ok(accepted) = answered else {
            let last = Answer::of(last.place, answered);
            return Run { done, last };
        };
        last = accepted;
    }
    Run {
        done: each.len(),
        last: Answer::of(start, Ok(last)),
    }
}

/// Does commands in order from the place record `start`, each as `command` does, up to the first that is refused;
/// Specification: Runs. `commands` has three words for each: code, a, b. One or two words left over are ignored.
///
/// Answers how many commands were done, and the answer of the last one that was tried. What the commands before a
/// refused one wrote remains. If lengths, kinds and `start` do not fit, the first command is refused with 4.
pub fn run(
    commands: &[u32],
    start: Place,
    tables: &mut Tables,
    inputs: &[u32],
    tapes: &Tapes,
    lists: &mut Lists,
) -> Run
    ensures same_tables { SameTables tables.old tables.new }
    ensures same_lists { SameLists lists.old lists.new }
    ensures done { let l = lent_lists_of tables.old inputs.now tapes.now lists.old in
        run_outcome result (lent_lists_of tables.new inputs.now tapes.now lists.new)
        ≡ run_outcome_of start (run_to_refusal 5 (commands_of commands.now) start l) }
{
    let unsound = !step::is_lent_soundly(start, tables, inputs, tapes, lists);
    if unsound {
        return refuse_first(commands.len(), start);
    }
    run_soundly(commands, start, tables, inputs, tapes, lists)
}
