//! Tapes with exactly enough words, and with one word too few: then the number is 12, the place record stays and no
//! word is sent.
use crate::case::Case;
use crate::code::Code;
use crate::words::Generator;
use crate::{case, lists, print};
use protocols::place::{Drawn, Party, Place};
use std::io;
use std::io::Write;

// The place record 1 to 10, in which every change shows.
pub(crate) fn place() -> Place {
    Place::from([1, 2, 3, 4, 5, 6, 7, 8, 9, 10])
}

// Other words and the words needed, or one word less.
pub(crate) fn enough(beside: usize, need: usize, is_short: bool) -> usize {
    beside
        .saturating_add(need)
        .saturating_sub(usize::from(is_short))
}

// So many words of each tape.
pub(crate) fn each_tape<F: Fn(Party) -> usize>(words: F) -> Drawn
    requires { F.IsAlwaysCallable words }
{
    Drawn {
        provider: words(Party::Provider),
        one: words(Party::One),
        two: words(Party::Two),
        three: words(Party::Three),
    }
}

// Of each tape the words drawn before and those that the protocol draws, of the short tape one word less.
pub(crate) fn lent_lengths(code: Code, short: Option<Party>) -> Drawn {
    let need = code.row().drawn;
    let drawn = place().drawn;
    each_tape(|party| enough(drawn.of(party), need.of(party), short == Some(party)))
}

fn line(out: &mut impl Write, tape: &str, case: Case, generator: &mut Generator) -> io::Result<()> {
    let delivered = case::perform(&case, generator);
    let code = case.code;
    let number = delivered.number();
    let place = delivered.done().place;
    write!(
        out,
        "short {tape} {code} number {number} place {place} words"
    )?;
    for (_, list) in &delivered.lists {
        let words = lists::received_count(list);
        write!(out, " {words}")?;
    }
    writeln!(out)
}

// A line for each tape from which the protocol draws, with this tape one word short, and one with no short tape, all on
// the same words.
pub(crate) fn print(out: &mut impl Write, code: Code, generator: &mut Generator) -> io::Result<()> {
    if case::first_tape(code).is_none() {
        return Ok(());
    }
    let exact = Case {
        place: place(),
        lent: lent_lengths(code, None),
        ..case::next_case(code, generator)
    };
    let need = code.row().drawn;
    for (tape, party) in [
        ("provider", Party::Provider),
        ("miner 1", Party::One),
        ("miner 2", Party::Two),
        ("miner 3", Party::Three),
    ] {
        if 0 < need.of(party) {
            let case = Case {
                lent: lent_lengths(code, Some(party)),
                ..exact
            };
            let mut same = *generator;
            line(out, tape, case, &mut same)?;
        }
    }
    line(out, "no tape", exact, generator)
}
