//! Runs the cases that tests/command_cases.py writes, and writes what each command answers and what each case leaves.
#![tactic(auto)]

mod case;
mod run;
mod scan;

use scan::Scanner;
use std::io;
use std::io::Write;

// Runs the cases of a text, whose first number is how many they are.
fn run_cases(out: &mut impl Write, text: &[u8]) -> io::Result<()> {
    let mut text = Scanner::new(text);
    for _ in 0..text.count() {
        case::run_case(out, &mut text)?;
    }
    Ok(())
}

fn main(rt: HostRuntime) -> io::Result<()> {
    let mut file = [0u8; 400000];
    let n = reading::read_whole(&mut rt.stdin(), &mut file)?;
    run_cases(&mut io::writer(&rt), &file[..n])
}
