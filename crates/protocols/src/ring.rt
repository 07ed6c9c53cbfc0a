//! The ring: sums, differences and products modulo 2^32; Specification: Words
ghost use Rattle.std.specs.Prelude.{◌≡◌};
ghost use Rattle.protocols.specs.Word as word;

/// The sum modulo 2^32.
#[tactic(auto, unfolding(crate::specs::Word::add))]
pub fn add(a: u32, b: u32) -> u32
    ensures { result ≡ word.add (word.modulus 5) a b }
{
    a.wrapping_add(b)
}

/// The difference modulo 2^32.
#[tactic(auto, unfolding(crate::specs::Word::sub))]
pub fn sub(a: u32, b: u32) -> u32
    ensures { result ≡ word.sub (word.modulus 5) a b }
{
    a.wrapping_sub(b)
}

/// The product modulo 2^32.
// It is computed in 64 bits, which hold it whole, and the low half is kept.
#[tactic(auto, unfolding(crate::specs::Word::mul))]
pub fn mul(a: u32, b: u32) -> u32
    ensures { result ≡ word.mul (word.modulus 5) a b }
{
    ((a as u64) * (b as u64) % 4294967296) as u32
}
