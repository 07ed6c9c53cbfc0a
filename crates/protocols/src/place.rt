//! The place record and draws from a tape; Specification: Place record; Specification: Draws
ghost use Rattle.std.specs.Prelude.{◌≡◌, ◌<◌, ◌↔◌, Some, IsNone, IfSome, length, take, drop};
ghost use Rattle.protocols.specs.Place.{count, with_count, draw_answer, draw, place_of};
ghost use Rattle.protocols.specs.Counts.{with_more};
ghost use Rattle.protocols.specs.Lent.{lent_words};
ghost use Rattle.protocols.specs.Printed as printed;

use std::fmt;

/// The parties that have a tape: the provider and the miners. The controller has none.
#[derive(Clone, Copy, Debug, PartialEq, Eq)]
pub enum Party {
    /// The provider, which shares the inputs out.
    Provider,
    /// Miner 1.
    One,
    /// Miner 2.
    Two,
    /// Miner 3.
    Three,
}

/// How many words of each tape are drawn.
#[repr(C)]
#[derive(Clone, Copy, Debug, Default, PartialEq, Eq)]
pub struct Drawn {
    /// Words of the provider's tape.
    pub provider: usize,
    /// Words of miner 1's tape.
    pub one: usize,
    /// Words of miner 2's tape.
    pub two: usize,
    /// Words of miner 3's tape.
    pub three: usize,
}

/// How many words each received list has.
#[repr(C)]
#[derive(Clone, Copy, Debug, Default, PartialEq, Eq)]
pub struct Received {
    /// Words that miner 1 has received.
    pub one: usize,
    /// Words that miner 2 has received.
    pub two: usize,
    /// Words that miner 3 has received.
    pub three: usize,
    /// Words that the controller has received.
    pub controller: usize,
}

/// The place record: how far the lent lists are used; Specification: Place record. `default` gives the empty one.
#[repr(C)]
#[derive(Clone, Copy, Debug, Default, PartialEq, Eq)]
pub struct Place {
    /// Filled handles.
    pub handles: usize,
    /// Inputs used, of one word each.
    pub inputs: usize,
    /// Words drawn from each tape.
    pub drawn: Drawn,
    /// Words in each received list.
    pub received: Received,
}

impl Drawn {
    /// How many words of the party's tape are drawn.
    pub fn of(self, party: Party) -> usize
        ensures { result ≡ count party self }
    {
        match party {
            Party::Provider => self.provider,
            Party::One => self.one,
            Party::Two => self.two,
            Party::Three => self.three,
        }
    }

    // The same counts, but `words` for one party.
    fn with(mut self, party: Party, words: usize) -> Drawn
        ensures { result ≡ with_count party words self }
    {
        match party {
            Party::Provider => self.provider = words,
            Party::One => self.one = words,
            Party::Two => self.two = words,
            Party::Three => self.three = words,
        }
        self
    }
}

// The words of a tape after so many used ones, if there are N. Zero words can be taken anywhere, even past the end.
#[inline(always)]
fn next_words<const N: usize>(tape: &[u32], used: usize) -> Option<&[u32; N]>
    ensures spent { IsNone result ↔ (length (drop used tape.now) < N) }
    ensures words { IfSome result (λ w. w.now ≡ take N (drop used tape.now)) }
{
    if tape.len().saturating_sub(used) < N {
        return None;
    }
    if N == 0 {
        return <[u32]>::first_chunk(&[]);
    }
    tape[used..used + N].first_chunk()
}

impl Place {
    /// The next N words of a party's tape, with the place record that counts them; `None` if fewer are left.
    /// Specification: Draws.
    #[tactic(auto, using(crate::proofs::Laws::Draws::draw_some, crate::proofs::Laws::Draws::draw_none))]
    #[inline(always)]
    pub fn draw<'a, const N: usize>(
        self,
        party: Party,
        tape: &'a [u32],
    ) -> Option<(&'a [u32; N], Place)>
        ensures { draw_answer self (lent_words result) ≡ draw N party tape.now self }
    {
        let at = self.drawn.of(party);
        let Some(words) = next_words::<N>(tape, at) else {
            return None;
        };
        let drawn = self.drawn.with(party, at + N);
        Some((words, Place { drawn, ..self }))
    }

    /// The record with so many more handles, inputs and received words. Counts wrap at 2^64, which no count reaches
    /// that is within its list.
    #[inline(always)]
    pub fn with_more(self, handles: usize, inputs: usize, received: Received) -> Place
        ensures { result ≡ with_more handles inputs received self }
    {
        let Received {
            one,
            two,
            three,
            controller,
        } = self.received;
        Place {
            handles: self.handles.wrapping_add(handles),
            inputs: self.inputs.wrapping_add(inputs),
            received: Received {
                one: one.wrapping_add(received.one),
                two: two.wrapping_add(received.two),
                three: three.wrapping_add(received.three),
                controller: controller.wrapping_add(received.controller),
            },
            ..self
        }
    }
}

/// From ten counts, in the order of the fields; Specification: Place record.
impl From<[usize; 10]> for Place {
    ghost from_gives = { λ counts p. p ≡ place_of counts };

    fn from(counts: [usize; 10]) -> Place {
        Place {
            handles: counts[0],
            inputs: counts[1],
            drawn: Drawn {
                provider: counts[2],
                one: counts[3],
                two: counts[4],
                three: counts[5],
            },
            received: Received {
                one: counts[6],
                two: counts[7],
                three: counts[8],
                controller: counts[9],
            },
        }
    }
}

/// Writes the four counts in decimal, a space between two: provider, miner 1, miner 2, miner 3.
impl fmt::Display for Drawn {
    ghost output = { λ n. Some (printed.drawn_text n) };

    fn fmt<W: fmt::Write>(&self, f: &mut fmt::Formatter<W>) -> fmt::Result {
        let Drawn {
            provider,
            one,
            two,
            three,
        } = *self;
        write!(f, "{provider} {one} {two} {three}")
    }
}

/// Writes the four counts in decimal, a space between two: miner 1, miner 2, miner 3, controller.
impl fmt::Display for Received {
    ghost output = { λ n. Some (printed.received_text n) };

    fn fmt<W: fmt::Write>(&self, f: &mut fmt::Formatter<W>) -> fmt::Result {
        let Received {
            one,
            two,
            three,
            controller,
        } = *self;
        write!(f, "{one} {two} {three} {controller}")
    }
}

/// Writes the ten counts in decimal, in the order of the fields, a space between two.
impl fmt::Display for Place {
    ghost output = { λ p. Some (printed.place_text p) };

    fn fmt<W: fmt::Write>(&self, f: &mut fmt::Formatter<W>) -> fmt::Result {
        let Place {
            handles,
            inputs,
            drawn,
            received,
        } = *self;
        write!(f, "{handles} {inputs} {drawn} {received}")
    }
}
