//! What a protocol answers: new shares and the moved place record, or a shortage.
ghost use Rattle.std.specs.Prelude.{◌≡◌, Some};
ghost use Rattle.protocols.specs.Printed as printed;

use super::place::Place;
use super::shares::Shares;
use std::error::Error;
use std::fmt;

/// What a protocol answers when it is done.
#[derive(Clone, Copy, Debug, PartialEq, Eq)]
pub struct Done {
    /// Each miner's share of the new value.
    pub shares: Shares,
    /// The place record, moved on by the drawn words.
    pub place: Place,
}

/// Why a protocol is not done; it has drawn, sent and written nothing then.
#[derive(Clone, Copy, Debug, PartialEq, Eq)]
pub enum Shortage {
    /// Fewer words of a tape are left than the protocol draws: refusal 12.
    TapeSpent,
    /// A received list has less room than its party's words need: refusal 13.
    ListFull,
}

impl Shortage {
    /// What is lacking and what mends it, in one line, in lower case, without a full stop. Specification: Sentences.
    pub fn sentence(self) -> &'static str
        ensures { result.now ≡ printed.shortage self }
    {
        match self {
            Shortage::TapeSpent => {
                "a tape has fewer words left than are drawn from it; lend more random words"
            }
            Shortage::ListFull => {
                "a received list has room for fewer words than are sent to it; lend a longer list"
            }
        }
    }
}

/// Writes the sentence.
impl fmt::Display for Shortage {
    ghost output = { λ s. Some (printed.shortage s) };

    fn fmt<W: fmt::Write>(&self, f: &mut fmt::Formatter<W>) -> fmt::Result {
        f.write_str(self.sentence())
    }
}

impl Error for Shortage {}
