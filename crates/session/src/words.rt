//! A file's words, written to the front of the lent ones; Specification: Sheet file.
ghost use Rattle.std.specs.Prelude.{◌≡◌, ◌+◌, ◌++◌, ◌/◌, ◌≤◌, length, drop};
ghost use Rattle.std.proofs.lemmas.List.Edits.{sets};
ghost use Rattle.session.specs.Words.{words_of};

// Writes the words of `bytes` to `words` from index `at` on.
#[inline(always)]
fn put_words(bytes: &[u8], words: &mut [u32], at: usize)
    requires { at + length bytes.now / 4 ≤ length words.old }
    ensures { words.new ≡ sets words.old at (words_of bytes.now) }
{
    let (quads, _) = bytes.as_chunks::<4>();
    for (i, quad) in quads.iter().enumerate() {
        words[at + i] = u32::from_le_bytes(*quad);
    }
}

// The same for four words. The block is passed by value, so that it is read before a word is written: the compiler does
// not know that `words` and the file do not overlap.
#[inline(always)]
fn put_block(block: [u8; 16], words: &mut [u32], at: usize)
    requires { at + 4 ≤ length words.old }
    ensures { words.new ≡ sets words.old at (words_of block) }
{
    put_words(&block, words, at);
}

// Writes the file's words to the front of `words`.
pub(crate) fn decode(file: &[u8], words: &mut [u32])
    requires { length file.now / 4 ≤ length words.old }
    ensures { words.new ≡ words_of file.now ++ drop (length file.now / 4) words.old }
{
    let (blocks, rest) = file.as_chunks::<16>();
    for (i, block) in blocks.iter().enumerate() {
        put_block(*block, words, 4 * i);
    }
    put_words(rest, words, 4 * blocks.len());
}
