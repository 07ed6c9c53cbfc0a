//! Runs the cases of tests/protocol_vectors.py on the protocols, and writes the same text.
#![tactic(auto)]

mod case;
mod checksum;
mod code;
mod delivery;
mod lists;
mod print;
mod short;
mod words;
mod worked;

use code::{CODES, Code};
use std::io;
use std::io::Write;
use words::Generator;

// A protocol's generated cases: three in full, those of tapes that are too short, on the same words those of lists that
// are too short, and two hundred as a checksum.
fn print_generated(out: &mut impl Write, code: Code, generator: &mut Generator) -> io::Result<()> {
    for number in 1..=3 {
        case::print(out, number, code, generator)?;
    }
    let same = *generator;
    short::print(out, code, generator)?;
    delivery::print(out, code, same)?;
    checksum::print(out, code, generator)
}

// Each protocol goes on with the words of the generator where the one before it stopped.
fn print_all(out: &mut impl Write) -> io::Result<()> {
    worked::print(out)?;
    let mut generator = Generator::new(1);
    for code in CODES {
        print_generated(out, code, &mut generator)?;
    }
    Ok(())
}

fn main(rt: HostRuntime) -> io::Result<()> {
    print_all(&mut io::writer(&rt))
}
