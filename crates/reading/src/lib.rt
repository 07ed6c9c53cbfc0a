//! Reads an input whole into a lent buffer.
#![tactic(auto)]

ghost use Rattle.std.specs.Prelude.{◌≡◌, ℕ, ◌<◌, [], IfOk, OnErr, Ok, length, take};
ghost use Rattle.std.specs.Io.{ReadsAtMost};
ghost use Rattle.std.specs.Io.KnownBytes.{Consumes, IsAtEnd};

use std::io;
use std::io::Read;

/// Reads until the input ends or the buffer is full. The result is how many bytes were read to the front of the buffer;
/// if the buffer is not full, they are the whole input.
///
/// # Errors
/// The error of a read that fails. The bytes read before it are then at the front of the buffer; those behind them are
/// unspecified.
#[tactic(auto, using(crate::proofs::Filled::consumes_filled))]
pub fn read_whole<R: Read>(from: &mut R, buffer: &mut [u8]) -> io::Result<usize>
    ensures counted { ReadsAtMost result buffer.new }
    ensures bytes { IfOk result (λ n. Consumes (R.remaining from.old) (R.remaining from.new) (take n buffer.new)) }
    ensures whole { IfOk result (λ n. n < length buffer.new → IsAtEnd (R.remaining from.new)) }
    ensures failed { OnErr result
        ((n : ℕ) × (n < length buffer.new)
        × Consumes (R.remaining from.old) (R.remaining from.new) (take n buffer.new)) }
    ensures no_room { buffer.old ≡ [] → result ≡ Ok 0 }
{
    let mut done = 0;
    // A `while`, since only a read itself shows how many bytes it gives.
    while done < buffer.len() {
        let more = from.read(&mut buffer[done..])?;
        if more == 0 {
            return Ok(done);
        }
        done += more;
    }
    Ok(done)
}
