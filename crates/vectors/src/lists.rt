//! The received lists of a case: 32 words each, at first 100 to 131.
//! No case sends the word that a list already has at a position, so each word that is written shows.
use crate::case::Case;
use crate::words;
use machine::refusal::Refusal;
use protocols::lent::{Lists, Tapes};
use protocols::outcome::{Done, Shortage};
use protocols::place::{Place, Received};
use protocols::shares::Shares;
use std::fmt;

// Whose list it is.
#[derive(Clone, Copy, PartialEq, Eq)]
pub enum Receiver {
    One,
    Two,
    Three,
    Controller,
}

impl Receiver {
    // How many of these words go to this list.
    pub(crate) fn due(self, received: Received) -> usize {
        match self {
            Receiver::One => received.one,
            Receiver::Two => received.two,
            Receiver::Three => received.three,
            Receiver::Controller => received.controller,
        }
    }
}

impl fmt::Display for Receiver {
    fn fmt<W: fmt::Write>(&self, f: &mut fmt::Formatter<W>) -> fmt::Result {
        f.write_str(match self {
            Receiver::One => "miner 1",
            Receiver::Two => "miner 2",
            Receiver::Three => "miner 3",
            Receiver::Controller => "controller",
        })
    }
}

// What a protocol answers, and the lists that it leaves, in the order in which they are printed.
#[derive(Clone, Copy)]
pub struct Delivered {
    place: Place,
    outcome: Result<Done, Shortage>,
    pub lists: [(Receiver, [u32; 32]); 4],
}

impl Delivered {
    // 0, or the number of the refusal.
    pub(crate) fn number(&self) -> u32 {
        match self.outcome {
            Ok(_) => 0,
            Err(shortage) => u32::from(Refusal::from(shortage)),
        }
    }

    // The new shares and the next place record; or shares 0 and the place record as it was.
    pub(crate) fn done(&self) -> Done {
        self.outcome.unwrap_or(Done {
            shares: Shares::default(),
            place: self.place,
        })
    }
}

// The words of a list before a case.
fn before() -> [u32; 32] {
    words::in_a_row(100)
}

// How many words were written to a list.
pub(crate) fn received_count(list: &[u32; 32]) -> usize {
    list.iter()
        .zip(&before())
        .filter(|(word, before)| word != before)
        .count()
}

// The first words of a tape, or all of it.
fn front(tape: &[u32], count: usize) -> &[u32] {
    tape.get(..count).unwrap_or(tape)
}

// The end of a list, with so much room.
fn tail(list: &mut [u32], room: usize) -> &mut [u32] {
    let start = list.len().saturating_sub(room);
    &mut list[start..]
}

// Performs a case on the fronts of the tapes and the ends of the lists that it lends. The operands' input is also the
// constant or the position.
pub(crate) fn perform(case: &Case, tapes: &Tapes) -> Delivered {
    let Case {
        code,
        operands,
        place,
        lent,
        room,
    } = *case;
    let fronts = Tapes {
        provider: front(tapes.provider, lent.provider),
        one: front(tapes.one, lent.one),
        two: front(tapes.two, lent.two),
        three: front(tapes.three, lent.three),
    };
    let mut one = before();
    let mut two = before();
    let mut three = before();
    let mut controller = before();
    let mut tails = Lists {
        one: tail(&mut one, room.one),
        two: tail(&mut two, room.two),
        three: tail(&mut three, room.three),
        controller: tail(&mut controller, room.controller),
    };
    let outcome = code.play(operands.input, operands, place, &fronts, &mut tails);
    Delivered {
        place,
        outcome,
        lists: [
            (Receiver::One, one),
            (Receiver::Two, two),
            (Receiver::Three, three),
            (Receiver::Controller, controller),
        ],
    }
}
