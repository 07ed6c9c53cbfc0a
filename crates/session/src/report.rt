//! The session of a file as text, which the program `pool` prints; Specification: Lines.
ghost use Rattle.std.specs.Prelude.{◌≡◌, false, ◌≤◌, length, take, drop};
ghost use Rattle.protocols.specs.Lent.{SameLists};
ghost use Rattle.machine.specs.Lent.{SameTables};
ghost use Rattle.session.specs.Session.{lent_state};
ghost use Rattle.session.specs.Text.{is_early, pool_outcome};
ghost use Rattle.session.specs.Text as spec;
ghost use Rattle.session.specs.Private.Report.{text_by_shares, IsReadable};
ghost use Rattle.session.specs.Private.Writing.{IsFront};

use super::answer::SessionAnswer;
use super::sheet;
use super::text::Text;
use machine::lent::Tables;
use machine::refusal::Refusal;
use protocols::lent::Lists;

/// The most bytes of a session file; Specification: Limits.
pub const BYTES: usize = 30768;

/// Bytes of room for a session's text, which has at most 128 lines of 47 bytes and a last one of 109.
pub const TEXT: usize = 8192;

// Writes the text of a session to the front of a buffer and answers its length, from the session's answer, the commands
// done, which follow the twelve words of the contents, and the controller's three shares for each open.
fn report(answer: SessionAnswer, words: &[u32], shares: &[u32], out: &mut [u8; TEXT]) -> usize
    requires { is_early answer.number ≡ false → IsReadable answer words.now shares.now }
    ensures { IsFront out.old (text_by_shares answer words.now shares.now) out.new result }
{
    let number = answer.number;
    let mut text = Text::new(out);
    if (0 < number) & (number <= 4) {
        text.put_refusal(number);
        return text.len();
    }
    let end = 12 + 3 * answer.done;
    text.put_opens(&words[12..end], &shares[..answer.place.received.controller]);
    text.put_last(answer);
    text.len()
}

/// Runs the session of a file, as `session` does, and writes its text to the front of `out`; Specification: Lines.
///
/// The text has a line `open H W` for each opened word W and its handle H. The last line is `end N A B C D`, with the
/// commands done and the counts of words that miners 1, 2, 3 and the controller received, or `refused R at K`, with the
/// number of the refusal and the refused command, counted from 0. A session that is refused as a whole gives
/// `refused R` alone.
///
/// The result is the text's length in bytes; the rest of `out` is as it was. A file of over `BYTES` bytes gives
/// `refused 3`, and then nothing but `out` is written; Specification: Program.
pub fn pool(
    file: &[u8],
    words: &mut [u32],
    tables: &mut Tables,
    lists: &mut Lists,
    out: &mut [u8; TEXT],
) -> usize
    ensures same_tables { SameTables tables.old tables.new }
    ensures same_lists { SameLists lists.old lists.new }
    ensures printed { pool_outcome (take result out.new) words.new (lent_state tables.new lists.new)
        ≡ spec.pool file.now words.old (lent_state tables.old lists.old) }
    ensures rest { drop result out.new ≡ drop result out.old }
    ensures within { result ≤ length out.new }
{
    if BYTES < file.len() {
        let answer = SessionAnswer::of_refusal(Refusal::OverLimit);
        return report(answer, words, lists.controller(), out);
    }
    let answer = sheet::session(file, words, tables, lists);
    report(answer, words, lists.controller(), out)
}
