//! Received lists with exactly enough room, with more, and with one word less: then the number is 13, and the place
//! record and all lists stay.
use crate::case::Case;
use crate::code::Code;
use crate::lists::Receiver;
use crate::words::Generator;
use crate::{case, print, short};
use protocols::place::Received;
use std::fmt::Display;
use std::io;
use std::io::Write;

// The room that each list needs and so many words more; in the short list one word less.
fn room(code: Code, more: usize, short: Option<Receiver>) -> Received {
    let need = code.row().received;
    let room = |receiver: Receiver| {
        short::enough(more, receiver.due(need), short == Some(receiver))
    };
    Received {
        one: room(Receiver::One),
        two: room(Receiver::Two),
        three: room(Receiver::Three),
        controller: room(Receiver::Controller),
    }
}

// Prints a case with its lists whole.
fn line(
    out: &mut impl Write,
    label: impl Display + Drop,
    case: Case,
    mut generator: Generator,
) -> io::Result<()> {
    let delivered = case::perform(&case, &mut generator);
    let Case { code, room, .. } = case;
    let place = delivered.done().place;
    write!(out, "deliver {label} {code} room {room}")?;
    print::outcome(out, &delivered)?;
    writeln!(out, " place {place}")?;
    print::lists(out, &delivered, true)
}

// The cases of a protocol that sends words, all on the same operands and tapes: exactly enough room, more room, and
// each list to which it sends one word short. In the last case a tape is short too, and the number is 12.
pub(crate) fn print(out: &mut impl Write, code: Code, mut generator: Generator) -> io::Result<()> {
    let Some(first) = case::first_tape(code) else {
        return Ok(());
    };
    let exact = Case {
        place: short::place(),
        lent: short::lent_lengths(code, None),
        room: room(code, 0, None),
        ..case::next_case(code, &mut generator)
    };
    let more = Case {
        room: room(code, 2, None),
        ..exact
    };
    line(out, "exact", exact, generator)?;
    line(out, "more", more, generator)?;
    for short in [
        Receiver::One,
        Receiver::Two,
        Receiver::Three,
        Receiver::Controller,
    ] {
        if 0 < short.due(code.row().received) {
            let case = Case {
                room: room(code, 0, Some(short)),
                ..exact
            };
            line(out, format_args!("short {short}"), case, generator)?;
        }
    }
    let both = Case {
        lent: short::lent_lengths(code, Some(first)),
        room: room(code, 0, Some(Receiver::Two)),
        ..exact
    };
    line(out, "short tape and miner 2", both, generator)
}
