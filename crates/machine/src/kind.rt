//! The kinds of values; Specification: Kinds.
ghost use Rattle.std.specs.Prelude.{◌≡◌, Some};
ghost use Rattle.machine.specs.Table.{kind_number};
ghost use Rattle.machine.specs.Printed as printed;

use std::fmt;

/// A value's kind, which says how its three shares combine; Specification: Shares.
#[derive(Clone, Copy, Debug, PartialEq, Eq)]
pub enum Kind {
    /// The value is the sum of the shares modulo 2^32.
    RingValue,
    /// The value is the exclusive or of the shares.
    BitWord,
}

/// The kind's number in the kind list: 1 for a ring value, 2 for a bit word.
impl From<Kind> for u32 {
    fn from(kind: Kind) -> u32
        ensures { result ≡ kind_number kind }
    {
        match kind {
            Kind::RingValue => 1,
            Kind::BitWord => 2,
        }
    }
}

/// Writes the kind's name.
impl fmt::Display for Kind {
    ghost output = { λ k. Some (printed.kind k) };

    fn fmt<W: fmt::Write>(&self, f: &mut fmt::Formatter<W>) -> fmt::Result {
        match self {
            Kind::RingValue => f.write_str("ring value"),
            Kind::BitWord => f.write_str("bit word"),
        }
    }
}
