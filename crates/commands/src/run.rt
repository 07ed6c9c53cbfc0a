//! The commands of a case, each on the lists and the place record that the one before it left.
use crate::scan::Scanner;
use machine::answer::Answer;
use machine::code::Command;
use machine::command;
use machine::lent::Tables;
use protocols::lent::{Lists, Tapes};
use protocols::place::Place;
use std::io::Write;
use std::{array, io};

// The lists that a case's commands only read.
#[derive(Clone, Copy)]
pub struct Supplied<'a> {
    pub inputs: &'a [u32],
    pub tapes: Tapes<'a>,
}

// Runs the next command, prints its answer, and answers the place record after it.
fn step(
    out: &mut impl Write,
    text: &mut Scanner,
    place: Place,
    supplied: Supplied,
    tables: &mut Tables,
    lists: &mut Lists,
) -> io::Result<Place> {
    let [code, a, b]: [u32; 3] = array::from_fn(|_| text.word());
    let Answer {
        number,
        place,
        opened,
    } = command::command(
        Command { code, a, b },
        place,
        tables,
        supplied.inputs,
        &supplied.tapes,
        lists,
    );
    writeln!(
        out,
        "{code} {a} {b} answers {number} place {place} opened {opened}"
    )?;
    Ok(place)
}

// Runs all commands of a case, past refused ones.
pub(crate) fn run(
    out: &mut impl Write,
    text: &mut Scanner,
    supplied: Supplied,
    tables: &mut Tables,
    lists: &mut Lists,
) -> io::Result<()> {
    let mut place = Place::from(array::from_fn(|_| text.count()));
    for _ in 0..text.count() {
        place = step(out, text, place, supplied, tables, lists)?;
    }
    Ok(())
}
