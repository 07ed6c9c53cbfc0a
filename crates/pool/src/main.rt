//! Reads a session from a file or from standard input, runs it and prints its text.
#![tactic(auto)]

mod arguments;

ghost use Rattle.std.specs.Io.{ReadsAtMost};

use machine::lent::Tables;
use protocols::lent::Lists;
use session::{BYTES, TEXT, WORDS};
use std::io::IsTerminal;
use std::process::ExitCode;
use std::rt::Files;
use std::{env, fs, io};

// Runs the session of a file and prints its text.
fn print_session(rt: &impl Print, file: &[u8]) -> io::Result<()> {
    let mut words = [0u32; WORDS];
    let mut share1 = [0u32; 128];
    let mut share2 = [0u32; 128];
    let mut share3 = [0u32; 128];
    let mut kinds = [0u32; 128];
    let mut received1 = [0u32; 3584];
    let mut received2 = [0u32; 3584];
    let mut received3 = [0u32; 3584];
    let mut controller = [0u32; 3584];
    let mut out = [0u8; TEXT];
    let mut tables = Tables {
        one: &mut share1,
        two: &mut share2,
        three: &mut share3,
        kinds: &mut kinds,
    };
    let mut lists = Lists {
        one: &mut received1,
        two: &mut received2,
        three: &mut received3,
        controller: &mut controller,
    };
    let length = session::pool(file, &mut words, &mut tables, &mut lists, &mut out);
    rt.write_all(&out[..length])
}

// Reads standard input whole. If it is a terminal, a line on standard error says first what the program waits for.
fn read_input(rt: &HostRuntime, buffer: &mut [u8]) -> io::Result<usize>
    ensures { ReadsAtMost result buffer.new }
{
    let mut input = rt.stdin();
    if input.is_terminal() {
        let _ = rt.eprintln(
            "pool: reading a session file from standard input; name a file instead, or see pool --help",
        );
    }
    reading::read_whole(&mut input, buffer)
}

// Reads a named file whole.
fn read_file(rt: &impl Files, path: &str, buffer: &mut [u8]) -> io::Result<usize>
    ensures { ReadsAtMost result buffer.new }
{
    reading::read_whole(&mut fs::open(rt, path)?, buffer)
}

// Says on standard error what failed, with the system's message; where that fails too, the exit status still says it.
fn failure(rt: &impl Eprint, what: &str, error: io::Error) -> ExitCode {
    let _ = rt.eprintln(format_args!("pool: {what}: {error}"));
    ExitCode::FAILURE
}

// Reads, runs and prints the session of the named file or of standard input.
fn run(rt: &HostRuntime, named: Option<&str>) -> ExitCode {
    let mut file = [0u8; BYTES + 1];
    let read = match named {
        Some(path) => read_file(rt, path, &mut file),
        None => read_input(rt, &mut file),
    };
    let n = match read {
        Ok(n) => n,
        Err(error) => return failure(rt, named.unwrap_or("standard input"), error),
    };
    match print_session(rt, &file[..n]) {
        Ok(()) => ExitCode::SUCCESS,
        Err(error) => failure(rt, "standard output", error),
    }
}

// Prints the help, the version, or what is wrong with the arguments.
fn print_answer(rt: &HostRuntime, answer: &clap::Error) -> ExitCode {
    match answer.print(rt) {
        Err(error) if !answer.use_stderr() => failure(rt, "standard output", error),
        _ => ExitCode::from(answer.exit_code() as u8),
    }
}

fn main(rt: HostRuntime) -> ExitCode {
    let words: Vec<String> = match env::args(&rt).and_then(|words| Ok(words.collect(rt.alloc())?)) {
        Ok(words) => words,
        Err(error) => return failure(&rt, "arguments, which must be UTF-8 text", error),
    };
    match arguments::file_named(rt.alloc(), words.as_slice()) {
        Ok(named) => run(&rt, named),
        Err(answer) => print_answer(&rt, &answer),
    }
}
