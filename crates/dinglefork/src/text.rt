//! The call for a session and its text; Specification: Lines.
ghost use Rattle.std.specs.Prelude.{◌≡◌, ◌≤◌, length, take, drop};
ghost use Rattle.protocols.specs.Lent.{SameLists};
ghost use Rattle.machine.specs.Lent.{SameTables};
ghost use Rattle.session.specs.Session.{lent_state};
ghost use Rattle.session.specs.Text.{pool_outcome};
ghost use Rattle.session.specs.Text as spec;

use machine::lent::Tables;
use protocols::lent::Lists;
use session::TEXT;

/// Runs a session file, writes the text that the program `pool` prints of it to the front of `out`, and answers the
/// text's length in bytes: all arguments and the answer are those of `session::pool`.
#[unsafe(no_mangle)]
pub extern "C" fn dinglefork_pool(
    file: &[u8],
    words: &mut [u32],
    tables: &mut Tables,
    lists: &mut Lists,
    out: &mut [u8; TEXT],
) -> usize
    ensures same_tables { SameTables tables.old tables.new }
    ensures same_lists { SameLists lists.old lists.new }
    ensures printed { pool_outcome (take result out.new) words.new (lent_state tables.new lists.new)
        ≡ spec.pool file.now words.old (lent_state tables.old lists.old) }
    ensures rest { drop result out.new ≡ drop result out.old }
    ensures within { result ≤ length out.new }
{
    session::pool(file, words, tables, lists, out)
}
