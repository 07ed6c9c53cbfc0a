//! The worked cases, and Bit at the lowest and highest position and past it; Specification: Worked computations.
use crate::case::{Case, WHOLE_LISTS, WHOLE_TAPES};
use crate::code::Code;
use crate::{lists, print, words};
use machine::arguments::Arguments;
use protocols::lent::Tapes;
use protocols::open;
use protocols::place::Place;
use protocols::shares::Shares;
use std::io;
use std::io::Write;

// A shared value, with an input, a constant or a position.
fn value_and_input(u: [u32; 3], input: u32) -> Arguments {
    Arguments {
        input,
        u: Shares::from(u),
        v: Shares::default(),
    }
}

// Two shared values.
fn pair(u: [u32; 3], v: [u32; 3]) -> Arguments {
    Arguments {
        v: Shares::from(v),
        ..value_and_input(u, 0)
    }
}

// The value of shares: of a bit word by exclusive or, else by sum.
fn value(code: Code, s: Shares) -> u32 {
    match code {
        Code::Bits => s.one ^ s.two ^ s.three,
        _ => open::total(s),
    }
}

// The miners' tapes, and none of the provider.
fn miner_tapes<'a>(one: &'a [u32], two: &'a [u32], three: &'a [u32]) -> Tapes<'a> {
    Tapes {
        provider: &[],
        one,
        two,
        three,
    }
}

// The provider's tape, and none of the miners.
fn provider_tape(provider: &[u32]) -> Tapes<'_> {
    Tapes {
        provider,
        ..miner_tapes(&[], &[], &[])
    }
}

// Performs a case with an empty place record and prints it with the value of its shares.
fn line(
    out: &mut impl Write,
    label: &str,
    code: Code,
    x: Arguments,
    tapes: Tapes,
) -> io::Result<()> {
    let case = Case {
        code,
        operands: x,
        place: Place::default(),
        lent: WHOLE_TAPES,
        room: WHOLE_LISTS,
    };
    let delivered = lists::perform(&case, &tapes);
    let value = value(code, delivered.done().shares);
    write!(out, "{label} ")?;
    print::case(out, &case, &delivered)?;
    writeln!(out, " value {value}")
}

// The same on tapes of numbers in a row, with another first word for miner 1.
fn line_in_a_row(
    out: &mut impl Write,
    label: &str,
    code: Code,
    x: Arguments,
    first: u32,
) -> io::Result<()> {
    let mut one = words::in_a_row::<18>(1);
    let two = words::in_a_row::<12>(20);
    let three = words::in_a_row::<12>(40);
    one[0] = first;
    line(out, label, code, x, miner_tapes(&one, &two, &three))
}

// Worked cases 1 to 4: 7 and 5 are stored and multiplied, and the product is opened.
fn session(out: &mut impl Write) -> io::Result<()> {
    let seven = value_and_input([0, 0, 0], 7);
    let five = value_and_input([0, 0, 0], 5);
    let factors = pair([1, 2, 4], [3, 4, 4294967294]);
    let product = value_and_input([4294967149, 4294966074, 1404], 0);
    let first = provider_tape(&[1, 2]);
    let second = provider_tape(&[3, 4]);
    let masks = miner_tapes(&[10, 20], &[30, 40], &[50, 60]);
    let fresh = miner_tapes(&[70], &[80], &[90]);
    line(out, "worked case 1", Code::Store, seven, first)?;
    line(out, "worked case 2", Code::Store, five, second)?;
    line(out, "worked case 3", Code::Multiply, factors, masks)?;
    line(out, "worked case 4", Code::Open, product, fresh)
}

// Worked cases 5 and 6, and Bit at the lowest and highest position. Past them the protocol reads 0.
fn bits(out: &mut impl Write) -> io::Result<()> {
    let no = value_and_input([1, 0, 1], 0);
    let yes = value_and_input([0, 1, 0], 0);
    let set = miner_tapes(&[1, 5, 0], &[], &[]);
    let clear = miner_tapes(&[0, 5, 0], &[], &[]);
    let ones = [4294967295, 4294967295, 4294967295];
    line(out, "worked case 5", Code::Bit, no, set)?;
    line(out, "worked case 6", Code::Bit, yes, clear)?;
    line_in_a_row(out, "first", Code::Bit, value_and_input(ones, 0), 1)?;
    line_in_a_row(out, "last", Code::Bit, value_and_input(ones, 31), 1)?;
    line_in_a_row(out, "past", Code::Bit, value_and_input(ones, 32), 1)
}

// Worked cases 7 to 12: Bits, Equal and Below, and a product that wraps.
fn rounds(out: &mut impl Write) -> io::Result<()> {
    let zero = value_and_input([5, 6, 4294967285], 0);
    let alike = pair([1, 2, 4], [3, 4, 0]);
    let apart = pair([9, 2, 3], [8, 2, 3]);
    let powers = pair([65536, 0, 0], [0, 65536, 0]);
    let less = pair([0, 1, 2], [2, 2, 1]);
    let fives = pair([0, 1, 4], [2, 2, 1]);
    let most = pair([4294967295, 1, 4294967295], [1, 1, 4294967294]);
    line_in_a_row(out, "worked case 7", Code::Bits, zero, 4294967295)?;
    line_in_a_row(out, "worked case 8", Code::Equal, alike, 1)?;
    line_in_a_row(out, "worked case 9", Code::Equal, apart, 1)?;
    line_in_a_row(out, "worked case 10", Code::Multiply, powers, 1)?;
    line_in_a_row(out, "worked case 11", Code::Below, less, 1)?;
    line_in_a_row(out, "worked case 11 too", Code::Below, fives, 1)?;
    line_in_a_row(out, "worked case 12", Code::Below, most, 1)
}

// All these cases.
pub(crate) fn print(out: &mut impl Write) -> io::Result<()> {
    session(out)?;
    bits(out)?;
    rounds(out)
}
