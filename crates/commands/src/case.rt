//! A case: its lists are read, its commands are run, and the lists that they leave are printed.
use crate::run;
use crate::run::Supplied;
use crate::scan::Scanner;
use machine::lent::Tables;
use protocols::lent::{Lists, Tapes};
use std::io;
use std::io::Write;

// The most words of a list, and of inputs and tapes together.
const ROOM: usize = 1024;

// Prints a list whole on a line, so that a word written where none is due shows.
fn print_list(out: &mut impl Write, name: &str, list: &[u32]) -> io::Result<()> {
    write!(out, "{name}")?;
    for word in list {
        write!(out, " {word}")?;
    }
    writeln!(out)
}

// Reads the share tables and the kind list, runs the commands, and prints these lists.
fn with_tables(
    out: &mut impl Write,
    text: &mut Scanner,
    supplied: Supplied,
    lists: &mut Lists,
) -> io::Result<()> {
    let mut one = [0u32; ROOM];
    let mut two = [0u32; ROOM];
    let mut three = [0u32; ROOM];
    let mut kinds = [0u32; ROOM];
    let mut tables = Tables {
        one: text.list(&mut one).0,
        two: text.list(&mut two).0,
        three: text.list(&mut three).0,
        kinds: text.list(&mut kinds).0,
    };
    run::run(out, text, supplied, &mut tables, lists)?;
    print_list(out, "share1", tables.one)?;
    print_list(out, "share2", tables.two)?;
    print_list(out, "share3", tables.three)?;
    print_list(out, "kinds", tables.kinds)
}

// Reads the received lists, goes on with the tables, and prints the received lists.
fn with_lists(out: &mut impl Write, text: &mut Scanner, supplied: Supplied) -> io::Result<()> {
    let mut one = [0u32; ROOM];
    let mut two = [0u32; ROOM];
    let mut three = [0u32; ROOM];
    let mut controller = [0u32; ROOM];
    let mut lists = Lists {
        one: text.list(&mut one).0,
        two: text.list(&mut two).0,
        three: text.list(&mut three).0,
        controller: text.list(&mut controller).0,
    };
    with_tables(out, text, supplied, &mut lists)?;
    print_list(out, "received1", lists.one)?;
    print_list(out, "received2", lists.two)?;
    print_list(out, "received3", lists.three)?;
    print_list(out, "controller", lists.controller)
}

// Runs a case, whose first line is its name. The lists that its commands only read share one array.
pub(crate) fn run_case(out: &mut impl Write, text: &mut Scanner) -> io::Result<()> {
    out.write_all(text.line())?;
    writeln!(out)?;
    let mut read = [0u32; ROOM];
    let (inputs, room) = text.list(&mut read);
    let (provider, room) = text.list(room);
    let (one, room) = text.list(room);
    let (two, room) = text.list(room);
    let (three, _) = text.list(room);
    let supplied = Supplied {
        inputs,
        tapes: Tapes {
            provider,
            one,
            two,
            three,
        },
    };
    with_lists(out, text, supplied)
}
