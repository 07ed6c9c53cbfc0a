//! Local commands: each miner on its own share, without words drawn or sent; Specification: Local commands
ghost use Rattle.std.specs.Prelude.{◌≡◌};
ghost use Rattle.protocols.specs.Word.{modulus};
ghost use Rattle.protocols.specs.Shares.{operands};
ghost use Rattle.protocols.specs.Local as local;

use super::ring;
use super::shares::Shares;

/// Ring shares of `u + v` modulo 2^32.
pub fn sum(u: Shares, v: Shares) -> Shares
    ensures { result ≡ local.sum (modulus 5) (operands u v) }
{
    u.zip(v, ring::add)
}

/// Ring shares of `u - v` modulo 2^32.
pub fn difference(u: Shares, v: Shares) -> Shares
    ensures { result ≡ local.difference (modulus 5) (operands u v) }
{
    u.zip(v, ring::sub)
}

/// Ring shares of `u + c` modulo 2^32; only miner 1's share changes.
pub fn constant_sum(u: Shares, c: u32) -> Shares
    ensures { result ≡ local.constant_sum (modulus 5) c u }
{
    Shares {
        one: ring::add(u.one, c),
        ..u
    }
}

/// Ring shares of `u` times `c` modulo 2^32.
pub fn constant_multiple(u: Shares, c: u32) -> Shares
    ensures { result ≡ local.constant_multiple (modulus 5) c u }
{
    u.map(|x| ring::mul(x, c))
}
