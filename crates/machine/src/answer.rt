//! What a command and a run answer; Specification: Answers.
ghost use Rattle.std.specs.Prelude.{◌≡◌};
ghost use Rattle.protocols.specs.declared.place.Place as place;
ghost use Rattle.machine.specs.declared.answer.Answer as answer;
ghost use Rattle.machine.specs.Command as spec;

use super::refusal::Refusal;
use protocols::place::Place;

/// What an accepted command answers.
#[derive(Clone, Copy, Debug, PartialEq, Eq)]
pub struct Accepted {
    /// The place record after the command.
    pub place: Place,
    /// The opened word, or 0 for a command other than open.
    pub opened: u32,
}

/// What a command answers, laid out as C has it; Specification: Answers.
#[repr(C)]
#[derive(Clone, Copy, Debug, PartialEq, Eq)]
pub struct Answer {
    /// 0 if the command is accepted, else the refusal's number, 4 to 13.
    pub number: u32,
    /// The place record after the command; a refused command leaves it as it was.
    pub place: Place,
    /// The opened word of an accepted open, otherwise 0.
    pub opened: u32,
}

// The form in which a caller of `step` takes the answer. Both callers have a form and so a copy of the step.
pub(crate) trait Form {
    ghost read: { place.Place → Self → answer.Answer };

    // The answer of a command from `place`.
    fn of(place: Place, answered: Result<Accepted, Refusal>) -> Self
        ensures { read place result ≡ spec.answer_of place answered };
}

// The form for a single command.
impl Form for Answer {
    ghost read = { λ p a. a };

    #[inline(always)]
    fn of(place: Place, answered: Result<Accepted, Refusal>) -> Answer {
        match answered {
            Ok(accepted) => Answer {
                number: 0,
                place: accepted.place,
                opened: accepted.opened,
            },
            Err(refusal) => Answer {
                number: u32::from(refusal),
                place,
                opened: 0,
            },
        }
    }
}

// The form for a run, which goes on from what an accepted command answers.
impl Form for Result<Accepted, Refusal> {
    ghost read = { spec.answer_of };

    #[inline(always)]
    fn of(_place: Place, answered: Result<Accepted, Refusal>) -> Result<Accepted, Refusal> {
        answered
    }
}

/// What a run up to the first refusal answers; Specification: Runs.
#[derive(Clone, Copy, Debug, PartialEq, Eq)]
pub struct Run {
    /// How many commands were done: all, or those before the first refusal.
    pub done: usize,
    /// The answer of the last command that was tried; without a command, number 0 and the place record of the start.
    pub last: Answer,
}
