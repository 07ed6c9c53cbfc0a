//! The call for a refusal's text; Specification: Sentences.
ghost use Rattle.std.specs.Prelude.{◌≡◌, ◌+◌, ◌-◌, ◌≤◌, ◌++◌, length, replicate};
ghost use Rattle.std.proofs.lemmas.List.Edits.{sets};
ghost use Rattle.machine.specs.Printed.{refusal_text};

use machine::refusal::Refusal;

/// The bytes of the buffer for a refusal's text: the longest text has fewer, so that a zero byte ends each.
pub const REFUSAL_TEXT: usize = 128;

/// Puts the text of the refusal with this number, 1 to 13, at the front of `out`, and zero bytes behind it; answers the
/// text's length in bytes. Of any other number the text is empty. Specification: Sentences.
#[unsafe(no_mangle)]
pub extern "C" fn dinglefork_refusal(number: u32, out: &mut [u8; REFUSAL_TEXT]) -> usize
    ensures text { out.new ≡ refusal_text number ++ replicate (128 - length (refusal_text number)) 0 }
    ensures len { result ≡ length (refusal_text number) }
    ensures ends_in_zero { result ≤ 127 }
{
    *out = [0; REFUSAL_TEXT];
    let Some(refusal) = Refusal::of_number(number) else {
        return 0;
    };
    let mut digits = itoa::Buffer::new();
    let at = put(out, 0, b"refused ");
    let at = put(out, at, digits.format(number).as_bytes());
    let at = put(out, at, b": ");
    put(out, at, refusal.sentence().as_bytes())
}

// Puts a part of a text at a position of the buffer, and answers the position behind it.
fn put(out: &mut [u8], at: usize, part: &[u8]) -> usize
    requires { at + length part.now ≤ length out.old }
    ensures bytes { out.new ≡ sets out.old at part.now }
    ensures end { result ≡ at + length part.now }
{
    let end = at + part.len();
    out[at..end].copy_from_slice(part);
    end
}
