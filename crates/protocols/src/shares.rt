//! Three words, one with each miner; Specification: Shares
ghost use Rattle.std.specs.Prelude.{◌≡◌, Some};
ghost use Rattle.protocols.specs.Shares.{at, each, prev, shares_of};
ghost use Rattle.protocols.specs.Printed as printed;

use std::fmt;

/// A word of each miner: its share of a value, or a word that it drew or received.
#[derive(Clone, Copy, Debug, Default, PartialEq, Eq)]
pub struct Shares {
    /// Miner 1's word.
    pub one: u32,
    /// Miner 2's word.
    pub two: u32,
    /// Miner 3's word.
    pub three: u32,
}

impl Shares {
    // `f` of each miner's word.
    #[inline(always)]
    pub(crate) fn map<F: Fn(u32) -> u32>(self, f: F) -> Shares
        requires { F.IsAlwaysCallable f }
        ensures one { F.post f self.one result.one }
        ensures two { F.post f self.two result.two }
        ensures three { F.post f self.three result.three }
    {
        Shares {
            one: f(self.one),
            two: f(self.two),
            three: f(self.three),
        }
    }

    // `f` of each miner's two words.
    #[inline(always)]
    pub(crate) fn zip<F: Fn(u32, u32) -> u32>(self, other: Shares, f: F) -> Shares
        requires { F.IsAlwaysCallable f }
        ensures one { F.post f self.one other.one result.one }
        ensures two { F.post f self.two other.two result.two }
        ensures three { F.post f self.three other.three result.three }
    {
        Shares {
            one: f(self.one, other.one),
            two: f(self.two, other.two),
            three: f(self.three, other.three),
        }
    }

    // `f` of each miner's two words and the previous miner's two.
    #[inline(always)]
    pub(crate) fn zip_previous<F: Fn(u32, u32, u32, u32) -> u32>(
        self,
        other: Shares,
        f: F,
    ) -> Shares
        requires { F.IsAlwaysCallable f }
        ensures one { F.post f self.one other.one self.three other.three result.one }
        ensures two { F.post f self.two other.two self.one other.one result.two }
        ensures three { F.post f self.three other.three self.two other.two result.three }
    {
        Shares {
            one: f(self.one, other.one, self.three, other.three),
            two: f(self.two, other.two, self.one, other.one),
            three: f(self.three, other.three, self.two, other.two),
        }
    }

    // Gives each miner the previous miner's word; Specification: Parties.
    #[inline(always)]
    pub(crate) fn previous(self) -> Shares
        ensures { result ≡ each (λ i. at (prev i) self) }
    {
        Shares {
            one: self.three,
            two: self.one,
            three: self.two,
        }
    }
}

/// From the words of miners 1, 2 and 3.
impl From<[u32; 3]> for Shares {
    ghost from_gives = { λ words s. s ≡ shares_of words };

    #[inline(always)]
    fn from(words: [u32; 3]) -> Shares {
        let [one, two, three] = words;
        Shares { one, two, three }
    }
}

/// Writes the three words in decimal, in the miners' order, a space between two.
impl fmt::Display for Shares {
    ghost output = { λ s. Some (printed.shares_text s) };

    fn fmt<W: fmt::Write>(&self, f: &mut fmt::Formatter<W>) -> fmt::Result {
        let Shares { one, two, three } = *self;
        write!(f, "{one} {two} {three}")
    }
}
