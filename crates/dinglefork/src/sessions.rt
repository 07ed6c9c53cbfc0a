//! The call for a session; Specification: Sessions.
ghost use Rattle.std.specs.Prelude.{◌≡◌};
ghost use Rattle.protocols.specs.Lent.{SameLists};
ghost use Rattle.machine.specs.Lent.{SameTables};
ghost use Rattle.session.specs.Session.{lent_state, session_outcome};
ghost use Rattle.session.specs.Session as spec;

use machine::lent::Tables;
use protocols::lent::Lists;
use session::SessionAnswer;

/// Runs the commands of a session file: all arguments and the answer are those of `session::session`.
#[unsafe(no_mangle)]
pub extern "C" fn dinglefork_session(
    file: &[u8],
    words: &mut [u32],
    tables: &mut Tables,
    lists: &mut Lists,
) -> SessionAnswer
    ensures same_tables { SameTables tables.old tables.new }
    ensures same_lists { SameLists lists.old lists.new }
    ensures outcome { session_outcome result words.new (lent_state tables.new lists.new)
        ≡ spec.session file.now words.old (lent_state tables.old lists.old) }
{
    session::session(file, words, tables, lists)
}
