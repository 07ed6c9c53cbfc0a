//! Writes public values by `Display` and `Debug`; tests/formats.py writes the same text.
#![tactic(auto)]

use machine::answer::{Accepted, Answer, Run};
use machine::code::Command;
use machine::kind::Kind;
use machine::lent::Sizes;
use machine::refusal::Refusal;
use machine::row::{Row, Use};
use protocols::outcome::{Done, Shortage};
use protocols::place::{Drawn, Party, Place, Received};
use protocols::shares::Shares;
use session::SessionAnswer;
use std::error::Error;
use std::fmt::Debug;
use std::io;
use std::io::Write;

const REFUSALS: [Refusal; 13] = [
    Refusal::NotWhole,
    Refusal::ContentsBroken,
    Refusal::OverLimit,
    Refusal::LentUnsoundly,
    Refusal::UnknownCode,
    Refusal::FieldNotZero,
    Refusal::HandleNotFilled,
    Refusal::WrongKind,
    Refusal::PositionOutside,
    Refusal::TablesFull,
    Refusal::InputsUsed,
    Refusal::TapeSpent,
    Refusal::ListFull,
];

const SHARES: Shares = Shares {
    one: 1,
    two: 2,
    three: 3,
};

const DRAWN: Drawn = Drawn {
    provider: 3,
    one: 4,
    two: 5,
    three: 6,
};

const RECEIVED: Received = Received {
    one: 7,
    two: 8,
    three: 9,
    controller: 10,
};

const PLACE: Place = Place {
    handles: 1,
    inputs: 2,
    drawn: DRAWN,
    received: RECEIVED,
};

const ANSWER: Answer = Answer {
    number: 7,
    place: PLACE,
    opened: 0,
};

// Writes an error by `Debug` and by `Display`, as a caller does that knows only the trait.
fn write_error<E: Error>(out: &mut impl Write, error: E) -> io::Result<()> {
    writeln!(out, "{error:?}: {error}")
}

fn write_errors(out: &mut impl Write) -> io::Result<()> {
    for refusal in REFUSALS {
        write_error(out, refusal)?;
    }
    for shortage in [Shortage::TapeSpent, Shortage::ListFull] {
        write_error(out, shortage)?;
    }
    Ok(())
}

fn write_debug<T: Debug>(out: &mut impl Write, value: &T) -> io::Result<()> {
    writeln!(out, "{value:?}")
}

fn write_names(out: &mut impl Write) -> io::Result<()> {
    for kind in [Kind::RingValue, Kind::BitWord] {
        writeln!(out, "{kind:?}: {kind}")?;
    }
    for party in [Party::Provider, Party::One, Party::Two, Party::Three] {
        write_debug(out, &party)?;
    }
    for field in [Use::Unused, Use::Handle, Use::Word, Use::Position] {
        write_debug(out, &field)?;
    }
    Ok(())
}

// What protocols, commands and sessions answer.
fn write_answers(out: &mut impl Write) -> io::Result<()> {
    write_debug(
        out,
        &Done {
            shares: SHARES,
            place: PLACE,
        },
    )?;
    write_debug(
        out,
        &Accepted {
            place: PLACE,
            opened: 5,
        },
    )?;
    write_debug(
        out,
        &Run {
            done: 2,
            last: ANSWER,
        },
    )?;
    write_debug(
        out,
        &SessionAnswer {
            done: 2,
            place: PLACE,
            number: 7,
        },
    )
}

// A command, its row of the table, and the lengths of lent lists.
fn write_commands(out: &mut impl Write) -> io::Result<()> {
    write_debug(
        out,
        &Command {
            code: 9,
            a: 1,
            b: 31,
        },
    )?;
    write_debug(
        out,
        &Row {
            a: Use::Handle,
            b: Use::Position,
            operands: Kind::BitWord,
            kind: Kind::RingValue,
            values: 1,
            inputs: 0,
            received: RECEIVED,
            drawn: DRAWN,
        },
    )?;
    write_debug(
        out,
        &Sizes {
            one: 11,
            two: 12,
            three: 13,
            kinds: 14,
            inputs: 15,
            tapes: DRAWN,
            received: RECEIVED,
        },
    )
}

fn main(rt: HostRuntime) -> io::Result<()> {
    let out = &mut io::writer(&rt);
    write_errors(out)?;
    write_names(out)?;
    write_answers(out)?;
    write_commands(out)
}
