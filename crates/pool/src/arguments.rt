//! The command line of `pool`.
ghost use Rattle.std.specs.Prelude.{◌≡◌, ◌≢◌, ℕ, List, [], ◌∷◌, Some, None, IfErr, IfOk};
ghost use Rattle.std.specs.Prelude.{map, option_map, string_bytes};
ghost use Rattle.clap.specs.Words.{FailsBy, app_of, fault_of, kind_of};
ghost use Rattle.clap.specs.declared.error.kind.ErrorKind.TheVariants.{OutOfMemory};
ghost use Rattle.pool.specs.Arguments.{Names, file_of, line};

use clap::{Arg, Command, Error};
use std::alloc::Global;

// What `--help` says below the options.
const DETAILS: &str = "\
Lines on standard output:
  open H W         the value with handle H is opened and is W
  end N A B C D    all N commands are done; miners 1, 2 and 3 received A, B and C
                   words and the controller D words
  refused R at K   command K, counted from 0, is refused with number R, and the
                   session ends there
  refused R        the file is refused as a whole with number R; nothing is run

The text is whole if its last line begins with `end` or `refused` and has its
line end.

Exit status:
  0  the text is printed, with `end` or with `refused`
  1  reading or writing failed, or an argument is not UTF-8; a line on standard
     error says what and why
  2  the arguments are wrong

In the repository docs/SHEET.md describes the session file, and
docs/SPECIFICATION.md the commands and the numbers of refusals.";

// The command line and its help.
fn command_line<'a>(alloc: Global) -> Result<Command<'a>, Error>
    ensures built { IfOk result (λ c. app_of c ≡ line) }
    ensures failed { IfErr result (λ e. kind_of e ≡ OutOfMemory) }
{
    let file = Arg::new(alloc, "FILE").help(
        "The session file; standard input without it or with `-`",
    );
    Ok(
        Command::new(alloc, "pool")
            .version(session::VERSION)
            .about("Runs a session of the three-miner pooling engine and prints what it opens")
            .after_help(DETAILS)
            .arg(file)?,
    )
}

/// The session file that the arguments name, or `None` for standard input. The program's name is the first word.
///
/// # Errors
/// What to print, and the exit status, where help or the version is asked for or the arguments are wrong.
pub(crate) fn file_named<'a>(alloc: Global, words: &'a [String]) -> Result<Option<&'a str>, Error>
    ensures named { IfOk result (λ f. option_map (λ s. s.now) f ≡ file_of (map string_bytes words.entry.now)) }
    ensures failed { FailsBy (fault_of line (map string_bytes words.entry.now)) result }
    ensures none { (program : List ℕ) → map string_bytes words.entry.now ≡ program ∷ [] → Names None result }
    ensures one { (program name : List ℕ) (first : ℕ) → first ≢ 45
        → map string_bytes words.entry.now ≡ program ∷ (first ∷ name) ∷ [] → Names (Some (first ∷ name)) result }
{
    let command = command_line(alloc)?;
    let matches = command.try_get_matches_from(words)?;
    Ok(match matches.get_str("FILE") {
        Some("-") => None,
        named => named,
    })
}
