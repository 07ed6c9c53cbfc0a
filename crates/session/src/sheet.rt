//! The session of a file: its refusals are tested, its words decoded, its commands run; Specification: Sessions.
ghost use Rattle.std.specs.Prelude.{◌≡◌};
ghost use Rattle.protocols.specs.Lent.{SameLists};
ghost use Rattle.machine.specs.Lent.{SameTables};
ghost use Rattle.session.specs.Session.{lent_state, session_outcome};
ghost use Rattle.session.specs.Session as spec;

use super::answer::SessionAnswer;
use super::words::decode;
use super::{contents, run};
use machine::lent::Tables;
use protocols::lent::Lists;

/// The fewest words to lend to a session: no session file has more; Specification: Limits.
pub const WORDS: usize = 7692;

/// Runs the commands of a session file from an empty place record up to the first refusal; Specification: Sessions.
///
/// `file` holds the contents, the commands, the inputs and four tapes, in words of four bytes, the lowest first;
/// Specification: Contents. Lent are at least `WORDS` words, to which the file is decoded, three share tables and a
/// kind list of one length, and four received lists of any lengths.
///
/// The answer's number is 0 if every command was done. It is 1 to 4 if the session is refused as a whole, and then
/// nothing is written: 1 and 2 for a file that is no sheet, 3 for a body over its limit or an incomplete command, 4 for
/// lent lists that do not fit. It is 5 to 13 if a command is refused, and then what the commands before it wrote
/// remains. Unless the session is refused as a whole, the file's words are at the front of `words` afterwards, and the
/// other words are as they were.
#[tactic(auto, using(crate::proofs::Laws::Session::words_lent))]
pub fn session(
    file: &[u8],
    words: &mut [u32],
    tables: &mut Tables,
    lists: &mut Lists,
) -> SessionAnswer
    ensures same_tables { SameTables tables.old tables.new }
    ensures same_lists { SameLists lists.old lists.new }
    ensures outcome { session_outcome result words.new (lent_state tables.new lists.new)
        ≡ spec.session file.now words.old (lent_state tables.old lists.old) }
{
    let entries = tables.kinds.len();
    let agree = (tables.one.len() == entries)
        & ((tables.two.len() == entries) & (tables.three.len() == entries));
    if let Err(refusal) = contents::validate(file, agree & (WORDS <= words.len())) {
        return SessionAnswer::of_refusal(refusal);
    }
    decode(file, words);
    run::run_words(&words[..file.len() / 4], tables, lists)
}
