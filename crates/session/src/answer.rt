//! The answer of a session; Specification: Sessions.
ghost use Rattle.std.specs.Prelude.{◌≡◌};

use machine::refusal::Refusal;
use protocols::place::Place;

/// The answer of a session, in C's layout; Specification: Sessions.
#[repr(C)]
#[derive(Clone, Copy, Debug, PartialEq, Eq)]
pub struct SessionAnswer {
    /// How many commands were done: all, or those before the first refused one.
    pub done: usize,
    /// The place record after these commands; Specification: Place record.
    pub place: Place,
    /// 0 if every command was done, 1 to 4 if the session was refused as a whole, 5 to 13 if a command was refused.
    pub number: u32,
}

impl SessionAnswer {
    ghost use Rattle.machine.specs.Run.{empty_place};
    ghost use Rattle.machine.specs.Refusal.{refusal_number};
    ghost use Rattle.session.specs.Session.{session_answer};

    // The answer of a session that is refused as a whole.
    pub(crate) fn of_refusal(refusal: Refusal) -> SessionAnswer
        ensures { result ≡ session_answer 0 empty_place (refusal_number refusal) }
    {
        SessionAnswer {
            done: 0,
            place: Place::default(),
            number: u32::from(refusal),
        }
    }
}
