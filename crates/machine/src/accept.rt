//! A command to which none of the refusals 4 to 11 applies: its protocol, and what it writes;
//! Specification: Accepted commands.
ghost use Rattle.std.specs.Prelude.{◌≡◌, ◌+◌};
ghost use Rattle.protocols.specs.Place.{lists};
ghost use Rattle.protocols.specs.Protocol.{perform};
ghost use Rattle.protocols.specs.Outcome.{outcome, delivery_of, delivery};
ghost use Rattle.protocols.specs.Lent.{tapes_of, SameLists};
ghost use Rattle.machine.specs.Table.{row};
ghost use Rattle.machine.specs.Lent.{tables_of, lent_lists_of, SameTables, sizes};
ghost use Rattle.machine.specs.Verdict.{supply_verdict};
ghost use Rattle.machine.specs.Verdict as verdict;
ghost use Rattle.machine.specs.Steps.{protocol};
ghost use Rattle.machine.specs.Command.{answer_of, verdict_outcome};
ghost use Rattle.machine.specs.Command as command;
ghost use Rattle.machine.specs.Private.Accept.{IsReady, HaveEntries, Fits, store_outcome, table_entries_of};
ghost use Rattle.machine.specs.Private.Accept as spec;

use super::answer::Accepted;
use super::arguments::Arguments;
use super::code::Command;
use super::lent::Tables;
use super::operation::Operation;
use super::refusal::Refusal;
use super::row::Row;
use protocols::lent::{Lists, Tapes};
use protocols::open;
use protocols::outcome::{Done, Shortage};
use protocols::place::Place;
use protocols::shares::Shares;

// The opened word: only open has words for the controller, and every other command opens 0; Specification: Answers.
fn opened_word(x: Row, s: Shares) -> u32
    ensures { result ≡ command.opened_word 5 x s }
{
    let received = x.received;
    if 0 < received.controller {
        return open::total(s);
    }
    0
}

// Writes the new handle's entries, if there is a new value. If the protocol lacked words or room, nothing changes.
#[tactic(auto, using(crate::proofs::Laws::Accept::counted_fits))]
#[inline(always)]
fn finish(
    x: Row,
    place: Place,
    played: Result<Done, Shortage>,
    tables: &mut Tables,
) -> Result<Accepted, Refusal>
    requires fits { (outcome place played).number ≡ 0 → Fits (outcome place played).place x }
    requires entries { HaveEntries (place.handles + x.values) (tables_of tables.old) tables.old.kinds.now }
    ensures same { SameTables tables.old tables.new }
    ensures outcome { store_outcome (answer_of place result) (table_entries_of tables.new)
        ≡ spec.outcome_after_protocol x place (outcome place played) (tables_of tables.old) tables.old.kinds.now }
{
    let done = played?;
    tables.store(x.values, place.handles, done.shares, x.kind);
    Ok(Accepted {
        place: done.place.with_more(x.values, x.inputs, x.received),
        opened: opened_word(x, done.shares),
    })
}

// Plays the protocol on received lists that are lent one by one: the borrow rules do not allow a struct of their
// unfilled parts where these are cut off.
#[inline(always)]
fn play_by_list<O: Operation>(
    c: Command,
    g: Arguments,
    place: Place,
    tapes: &Tapes,
    one: &mut [u32],
    two: &mut [u32],
    three: &mut [u32],
    controller: &mut [u32],
) -> Result<Done, Shortage>
    ensures { let performed = perform (protocol 5 O.code c.b) g place (tapes_of tapes.now) in
        delivery_of (outcome place result) (lists one.new two.new three.new controller.new)
        ≡ delivery place performed (lists one.old two.old three.old controller.old) }
{
    let mut lists = Lists {
        one,
        two,
        three,
        controller,
    };
    O::play(c.b, g, place, tapes, &mut lists)
}

// Plays the protocol on the unfilled parts of the received lists, and writes the new handle's entries.
#[inline(always)]
pub(crate) fn accept<O: Operation>(
    c: Command,
    place: Place,
    tables: &mut Tables,
    inputs: &[u32],
    tapes: &Tapes,
    lists: &mut Lists,
) -> Result<Accepted, Refusal>
    requires { IsReady O.code c place (lent_lists_of tables.old inputs.now tapes.now lists.old) }
    ensures same_tables { SameTables tables.old tables.new }
    ensures same_lists { SameLists lists.old lists.new }
    ensures decided { let l = lent_lists_of tables.old inputs.now tapes.now lists.old in
        command.command_outcome (answer_of place result) (lent_lists_of tables.new inputs.now tapes.now lists.new)
        ≡ verdict_outcome 5 (supply_verdict (row 5 O.code) place (sizes l) (verdict.Accepted O.code)) c place l }
{
    let x = O::row();
    let g = tables.arguments(x, c, place, inputs);
    let at = place.received;
    let played = play_by_list::<O>(
        c,
        g,
        place,
        tapes,
        &mut lists.one[at.one..],
        &mut lists.two[at.two..],
        &mut lists.three[at.three..],
        &mut lists.controller[at.controller..],
    );
    finish(x, place, played, tables)
}
