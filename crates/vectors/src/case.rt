//! Generated cases: operands, a place record with counts other than 0, and tapes.
use crate::code::Code;
use crate::lists::Delivered;
use crate::words::Generator;
use crate::{lists, print, short};
use machine::arguments::Arguments;
use protocols::lent::Tapes;
use protocols::open;
use protocols::place::{Drawn, Party, Place, Received};
use protocols::shares::Shares;
use std::io;
use std::io::Write;

// All the words of the four tapes.
pub(crate) const WHOLE_TAPES: Drawn = Drawn {
    provider: 32,
    one: 32,
    two: 32,
    three: 32,
};

// All the room of the four lists.
pub(crate) const WHOLE_LISTS: Received = Received {
    one: 32,
    two: 32,
    three: 32,
    controller: 32,
};

// A protocol, its operands, the place record, and how many words of each tape and list are lent.
#[derive(Clone, Copy)]
pub struct Case {
    pub code: Code,
    pub operands: Arguments,
    pub place: Place,
    pub lent: Drawn,
    pub room: Received,
}

// Random values are hardly ever equal: so v gets the value of u, or one that differs from it by a power of two.
fn near_value(u: Shares, v: Shares, word: u32) -> Shares {
    let apart = (word % 2) << (word / 2 % 32);
    let rest = open::total(u).wrapping_sub(v.one).wrapping_sub(v.two);
    Shares {
        three: rest.wrapping_add(apart),
        ..v
    }
}

// The operands of the next case.
fn operands(code: Code, generator: &mut Generator) -> Arguments {
    let u = Shares::from(generator.words());
    let v = Shares::from(generator.words());
    let input = generator.next_word();
    let given = Arguments { input, u, v };
    match code {
        Code::Bit => Arguments {
            input: input % 32,
            ..given
        },
        Code::Equal => Arguments {
            v: near_value(u, v, input),
            ..given
        },
        _ => given,
    }
}

// A place record whose counts are mostly not 0: the words that it counts must not be used.
fn place(generator: &mut Generator) -> Place {
    let [handles, inputs]: [usize; 2] = generator.words().map(|word| (word % 100) as usize);
    let [provider, drawn1, drawn2, drawn3]: [usize; 4] = generator
        .words()
        .map(|word| (word % 4) as usize);
    let [received1, received2, received3, controller]: [usize; 4] = generator
        .words()
        .map(|word| (word % 1000) as usize);
    Place::from([
        handles, inputs, provider, drawn1, drawn2, drawn3, received1, received2, received3,
        controller,
    ])
}

// How much of each tape is lent: from one word too few to six too many, if the protocol draws from it at all.
fn lent_lengths(code: Code, drawn: Drawn, generator: &mut Generator) -> Drawn {
    let need = code.row().drawn;
    let [provider, one, two, three]: [usize; 4] = generator.words().map(|word| (word % 8) as usize);
    let spare = Drawn {
        provider,
        one,
        two,
        three,
    };
    short::each_tape(|party| {
        let beside = drawn.of(party).saturating_add(spare.of(party));
        short::enough(beside, need.of(party), 0 < need.of(party))
    })
}

// The next case of a protocol, with tapes that may be too short and whole lists.
pub(crate) fn next_case(code: Code, generator: &mut Generator) -> Case {
    let operands = operands(code, generator);
    let place = place(generator);
    let lent = lent_lengths(code, place.drawn, generator);
    Case {
        code,
        operands,
        place,
        lent,
        room: WHOLE_LISTS,
    }
}

// Performs a case on four tapes of the next 32 words each.
pub(crate) fn perform(case: &Case, generator: &mut Generator) -> Delivered {
    let provider = generator.words::<32>();
    let one = generator.words::<32>();
    let two = generator.words::<32>();
    let three = generator.words::<32>();
    let tapes = Tapes {
        provider: &provider,
        one: &one,
        two: &two,
        three: &three,
    };
    lists::perform(case, &tapes)
}

// The first tape from which a protocol draws. One that draws from no tape sends nothing either.
pub(crate) fn first_tape(code: Code) -> Option<Party> {
    let drawn = code.row().drawn;
    [Party::Provider, Party::One]
        .into_iter()
        .find(|party| 0 < drawn.of(*party))
}

// Prints the next case in full.
pub(crate) fn print(
    out: &mut impl Write,
    number: usize,
    code: Code,
    generator: &mut Generator,
) -> io::Result<()> {
    let case = Case {
        lent: WHOLE_TAPES,
        ..next_case(code, generator)
    };
    let delivered = perform(&case, generator);
    write!(out, "case {number} ")?;
    print::case(out, &case, &delivered)?;
    writeln!(out)?;
    if first_tape(code).is_some() {
        let place = delivered.done().place;
        writeln!(out, "  place {place}")?;
        print::lists(out, &delivered, false)?;
    }
    Ok(())
}
