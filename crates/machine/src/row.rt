//! A row of the table of commands; Specification: Table of commands.
ghost use Rattle.std.specs.Prelude.{◌≡◌};
ghost use Rattle.protocols.specs.Place.{counts};
ghost use Rattle.protocols.specs.Counts.{received_counts};
ghost use Rattle.machine.specs.Table as spec;

use super::kind::Kind;
use protocols::place::{Drawn, Received};

/// What a command uses a field for; Specification: Table of commands.
#[derive(Clone, Copy, Debug, PartialEq, Eq)]
pub enum Use {
    /// Nothing: any word but 0 is refused with 6.
    Unused,
    /// A handle: 0 and one that is not filled are refused with 7, a value of the wrong kind with 8.
    Handle,
    /// Any word.
    Word,
    /// A bit position, 0 to 31: any other word is refused with 9.
    Position,
}

/// A command's row of the table: the place record moves on by its counts; Specification: Accepted commands.
#[derive(Clone, Copy, Debug, PartialEq, Eq)]
pub struct Row {
    /// What field a is.
    pub a: Use,
    /// What field b is.
    pub b: Use,
    /// The kind that its handles must have.
    pub operands: Kind,
    /// The kind of the new value.
    pub kind: Kind,
    /// How many new values there are: 0 or 1.
    pub values: usize,
    /// How many inputs are used: 0 or 1.
    pub inputs: usize,
    /// How many words each party receives.
    pub received: Received,
    /// How many words are drawn from each tape.
    pub drawn: Drawn,
}

// The received words of miners 1 to 3 and the controller.
pub(crate) fn received_counts(one: usize, two: usize, three: usize, controller: usize) -> Received
    ensures { result ≡ received_counts one two three controller }
{
    Received {
        one,
        two,
        three,
        controller,
    }
}

// The drawn words of the provider and miners 1 to 3.
pub(crate) fn counts(provider: usize, one: usize, two: usize, three: usize) -> Drawn
    ensures { result ≡ counts provider one two three }
{
    Drawn {
        provider,
        one,
        two,
        three,
    }
}

// The row of a command that makes a ring value from ring values.
pub(crate) fn ring_row(a: Use, b: Use, received: Received, drawn: Drawn) -> Row
    ensures { result ≡ spec.row_of a b Kind.RingValue Kind.RingValue 1 0 received drawn }
{
    Row {
        a,
        b,
        operands: Kind::RingValue,
        kind: Kind::RingValue,
        values: 1,
        inputs: 0,
        received,
        drawn,
    }
}

// The row of a local command.
pub(crate) fn local_row(a: Use, b: Use) -> Row
    ensures { result ≡ spec.row_of a b Kind.RingValue Kind.RingValue 1 0 (received_counts 0 0 0 0) (counts 0 0 0 0) }
{
    ring_row(a, b, received_counts(0, 0, 0, 0), counts(0, 0, 0, 0))
}
