//! The machine's commands as values, so that the cases of each can be listed and printed.
ghost use Rattle.protocols.specs.Lent.{SameLists};

use machine::arguments::Arguments;
use machine::commands;
use machine::operation::Operation;
use machine::row::Row;
use protocols::lent::{Lists, Tapes};
use protocols::outcome::{Done, Shortage};
use protocols::place::Place;
use std::fmt;

// The commands, in the order in which their cases are printed.
pub(crate) const CODES: [Code; 12] = [
    Code::Store,
    Code::Add,
    Code::Subtract,
    Code::AddConstant,
    Code::TimesConstant,
    Code::Multiply,
    Code::Reshare,
    Code::Bits,
    Code::Bit,
    Code::Equal,
    Code::Open,
    Code::Below,
];

#[derive(Clone, Copy)]
pub enum Code {
    Store,
    Add,
    Subtract,
    AddConstant,
    TimesConstant,
    Multiply,
    Reshare,
    Bits,
    Bit,
    Equal,
    Open,
    Below,
}

impl Code {
    pub(crate) fn row(self) -> Row {
        match self {
            Code::Store => commands::Store::row(),
            Code::Add => commands::Add::row(),
            Code::Subtract => commands::Subtract::row(),
            Code::AddConstant => commands::AddConstant::row(),
            Code::TimesConstant => commands::TimesConstant::row(),
            Code::Multiply => commands::Multiply::row(),
            Code::Reshare => commands::Reshare::row(),
            Code::Bits => commands::Bits::row(),
            Code::Bit => commands::Bit::row(),
            Code::Equal => commands::Equal::row(),
            Code::Open => commands::Open::row(),
            Code::Below => commands::Below::row(),
        }
    }

    pub(crate) fn play(
        self,
        b: u32,
        g: Arguments,
        p: Place,
        tapes: &Tapes,
        lists: &mut Lists,
    ) -> Result<Done, Shortage>
        ensures { SameLists lists.old lists.new }
    {
        match self {
            Code::Store => commands::Store::play(b, g, p, tapes, lists),
            Code::Add => commands::Add::play(b, g, p, tapes, lists),
            Code::Subtract => commands::Subtract::play(b, g, p, tapes, lists),
            Code::AddConstant => commands::AddConstant::play(b, g, p, tapes, lists),
            Code::TimesConstant => commands::TimesConstant::play(b, g, p, tapes, lists),
            Code::Multiply => commands::Multiply::play(b, g, p, tapes, lists),
            Code::Reshare => commands::Reshare::play(b, g, p, tapes, lists),
            Code::Bits => commands::Bits::play(b, g, p, tapes, lists),
            Code::Bit => commands::Bit::play(b, g, p, tapes, lists),
            Code::Equal => commands::Equal::play(b, g, p, tapes, lists),
            Code::Open => commands::Open::play(b, g, p, tapes, lists),
            Code::Below => commands::Below::play(b, g, p, tapes, lists),
        }
    }
}

// As tests/protocol_vectors.py names them.
impl fmt::Display for Code {
    fn fmt<W: fmt::Write>(&self, f: &mut fmt::Formatter<W>) -> fmt::Result {
        f.write_str(match self {
            Code::Store => "store",
            Code::Add => "add",
            Code::Subtract => "subtract",
            Code::AddConstant => "add constant",
            Code::TimesConstant => "times constant",
            Code::Multiply => "multiply",
            Code::Reshare => "reshare",
            Code::Bits => "bits",
            Code::Bit => "bit",
            Code::Equal => "equal",
            Code::Open => "open",
            Code::Below => "below",
        })
    }
}
