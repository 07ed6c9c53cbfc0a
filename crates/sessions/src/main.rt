//! Prints, for each session file that an argument names, its name and the texts of its session under four lendings: the
//! lists of `pool`, lists with little room, one word too few, and a kind list that is too short.
#![tactic(auto)]

mod lending;

ghost use Rattle.std.specs.Io.{ReadsAtMost};

use lending::{Lending, WHOLE};
use session::BYTES;
use std::env::FillError;
use std::io::Write;
use std::process::ExitCode;
use std::rt::{Env, Files};
use std::{fs, io};

// Prints the four texts of a file.
fn print_all(out: &mut impl Write, file: &[u8]) -> io::Result<()> {
    for lent in [
        WHOLE,
        Lending {
            entries: 1,
            kinds: 1,
            controller: 2,
            ..WHOLE
        },
        Lending {
            words: 7691,
            ..WHOLE
        },
        Lending {
            kinds: 127,
            ..WHOLE
        },
    ] {
        lending::print(out, file, lent)?;
    }
    Ok(())
}

// Reads a file to the front of the buffer. As in `std::fs`, a path that is not UTF-8 is an error.
fn read_file(rt: &impl Files, path: &[u8], buffer: &mut [u8]) -> io::Result<usize>
    ensures { ReadsAtMost result buffer.new }
{
    let Ok(path) = str::from_utf8(path) else {
        return Err(io::Error::from(io::ErrorKind::InvalidInput));
    };
    reading::read_whole(&mut fs::open(rt, path)?, buffer)
}

// Goes through the arguments to the last one. A file that cannot be read is reported on standard error and does not end
// the run; the exit status shows it even if the report fails.
fn print_arguments(rt: &(impl Env + Files + Eprint), out: &mut impl Write) -> io::Result<ExitCode> {
    let mut status = ExitCode::SUCCESS;
    for k in 1..usize::MAX {
        let mut path = [0u8; 4096];
        let path = match rt.arg(k, &mut path) {
            Ok(n) => &path[..n],
            Err(FillError::NotPresent) => break,
            Err(FillError::TooLong) => {
                out.write_all(b":\n")?;
                let _ = rt.eprintln(format_args!("argument {k}: too long"));
                status = ExitCode::FAILURE;
                continue;
            }
        };
        out.write_all(path)?;
        out.write_all(b":\n")?;
        let mut file = [0u8; BYTES + 1];
        match read_file(rt, path, &mut file) {
            Ok(n) => print_all(out, &file[..n])?,
            Err(error) => {
                let _ = rt.eprintln(format_args!("{}: {error}", path.escape_ascii()));
                status = ExitCode::FAILURE;
            }
        }
    }
    Ok(status)
}

fn main(rt: HostRuntime) -> io::Result<ExitCode> {
    print_arguments(&rt, &mut io::writer(&rt))
}
