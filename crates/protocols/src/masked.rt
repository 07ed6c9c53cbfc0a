//! Masks by exclusive or and the shared 'and', for the rounds of Bits and Equal; Specification: Shared and
ghost use Rattle.std.specs.Prelude.{◌≡◌, ◌<◌, bit_xor};
ghost use Rattle.protocols.specs.Masked as spec;

use super::shares::Shares;

// The number of a round, 0 to 4.
#[derive(Clone, Copy)]
pub(crate) struct Round {
    pub(crate) k: u32,
    ghost below: { k < 5 },
}

// Exclusive or, to be passed to `zip`.
pub(crate) fn xor(a: u32, b: u32) -> u32
    ensures { result ≡ bit_xor a b }
{
    a ^ b
}

/// The shares `p`, each masked by exclusive or with its miner's own mask of `q` and the previous miner's.
pub fn masked_shares(p: Shares, q: Shares) -> Shares
    ensures { result ≡ spec.masked_shares p q }
{
    p.zip(q, xor).zip(q.previous(), xor)
}

/// A miner's share of an 'and', from its own shares `a`, `b` and the previous miner's `x`, `y`.
/// Specification: Shared and.
pub fn and_share(a: u32, x: u32, b: u32, y: u32) -> u32
    ensures { result ≡ spec.and_share a x b y }
{
    (a & b) ^ (a & y) ^ (x & b)
}

/// Bit shares of the 'and' of the words of which `a` and `b` are bit shares.
pub fn and_shares(a: Shares, b: Shares) -> Shares
    ensures { result ≡ spec.and_shares a b }
{
    a.zip_previous(b, |a, b, x, y| and_share(a, x, b, y))
}
