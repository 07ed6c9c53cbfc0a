//! The refusals of commands and sessions; Specification: Table of refusals.
ghost use Rattle.std.specs.Prelude.{◌≡◌, Some};
ghost use Rattle.machine.specs.Refusal as spec;
ghost use Rattle.machine.specs.Printed as printed;

use protocols::outcome::Shortage;
use std::error::Error;
use std::fmt;

/// Why a command or a session is refused; Specification: Table of refusals. If several apply, the lowest is answered.
/// What is refused changes nothing.
#[derive(Clone, Copy, Debug, PartialEq, Eq)]
pub enum Refusal {
    /// 1: the session's file is under 48 bytes, or ends within a word.
    NotWhole,
    /// 2: the bodies of the file do not follow one another from word 12 to its end.
    ContentsBroken,
    /// 3: a body of the file is over its limit, or the commands are no multiple of three words.
    OverLimit,
    /// 4: the lent lists do not fit: the tables are not as long as the kind list, a count of the place record is over
    /// its list, a filled handle's kind is neither 1 nor 2, or a session is lent under 7,692 words.
    LentUnsoundly,
    /// 5: no command has the code.
    UnknownCode,
    /// 6: an unused field is not 0.
    FieldNotZero,
    /// 7: a handle is 0, or it is not filled.
    HandleNotFilled,
    /// 8: a handle has another kind than the command takes.
    WrongKind,
    /// 9: a bit position is over 31.
    PositionOutside,
    /// 10: the command makes a value, and every entry of the tables is filled.
    TablesFull,
    /// 11: the command is store, and every input is used.
    InputsUsed,
    /// 12: the words left on a tape are fewer than the command's draws.
    TapeSpent,
    /// 13: the room left in a received list is less than the command's words for it.
    ListFull,
}

impl Refusal {
    /// The refusal with this number, 1 to 13. Specification: Table of refusals.
    pub fn of_number(number: u32) -> Option<Refusal>
        ensures { result ≡ spec.refusal_numbered number }
    {
        match number {
            1 => Some(Refusal::NotWhole),
            2 => Some(Refusal::ContentsBroken),
            3 => Some(Refusal::OverLimit),
            4 => Some(Refusal::LentUnsoundly),
            5 => Some(Refusal::UnknownCode),
            6 => Some(Refusal::FieldNotZero),
            7 => Some(Refusal::HandleNotFilled),
            8 => Some(Refusal::WrongKind),
            9 => Some(Refusal::PositionOutside),
            10 => Some(Refusal::TablesFull),
            11 => Some(Refusal::InputsUsed),
            12 => Some(Refusal::TapeSpent),
            13 => Some(Refusal::ListFull),
            _ => None,
        }
    }

    /// What is wrong and how to mend it, in one line; Specification: Sentences.
    pub fn sentence(self) -> &'static str
        ensures { result.now ≡ printed.sentence self }
    {
        match self {
            Refusal::NotWhole => {
                "the file is under 48 bytes or ends within a word; send the whole file, 4 bytes a word"
            }
            Refusal::ContentsBroken => {
                "the bodies do not follow one another to the file's end; correct their starts and counts"
            }
            Refusal::OverLimit => {
                "a body is over its limit or the last command is incomplete; shorten the body or complete the command"
            }
            Refusal::LentUnsoundly => {
                "the lent lists do not fit; check their lengths, the kinds, the place record and a session's words"
            }
            Refusal::UnknownCode => {
                "no command has this code; take one from the table of commands"
            }
            Refusal::FieldNotZero => "a field that the command does not use is not 0; set it to 0",
            Refusal::HandleNotFilled => {
                "a handle is 0 or not filled; name one that an earlier command filled"
            }
            Refusal::WrongKind => {
                "a handle holds the wrong kind of value; make a bit word by bits, or a ring value by bit"
            }
            Refusal::PositionOutside => {
                "a bit position is past the highest bit; take one from 0 to 31"
            }
            Refusal::TablesFull => {
                "the share tables have no entry left for the new value; lend longer tables and kinds"
            }
            Refusal::InputsUsed => "all inputs are used; lend one for each store",
            Refusal::TapeSpent => Shortage::TapeSpent.sentence(),
            Refusal::ListFull => Shortage::ListFull.sentence(),
        }
    }
}

/// Writes number and sentence, as in `refused 11: all inputs are used; lend one for each store`.
impl fmt::Display for Refusal {
    ghost output = { λ r. Some (printed.refusal r) };

    fn fmt<W: fmt::Write>(&self, f: &mut fmt::Formatter<W>) -> fmt::Result {
        let number = u32::from(*self);
        let sentence = self.sentence();
        write!(f, "refused {number}: {sentence}")
    }
}

impl Error for Refusal {}

/// The refusal's number, 1 to 13.
impl From<Refusal> for u32 {
    fn from(refusal: Refusal) -> u32
        ensures { result ≡ spec.refusal_number refusal }
    {
        match refusal {
            Refusal::NotWhole => 1,
            Refusal::ContentsBroken => 2,
            Refusal::OverLimit => 3,
            Refusal::LentUnsoundly => 4,
            Refusal::UnknownCode => 5,
            Refusal::FieldNotZero => 6,
            Refusal::HandleNotFilled => 7,
            Refusal::WrongKind => 8,
            Refusal::PositionOutside => 9,
            Refusal::TablesFull => 10,
            Refusal::InputsUsed => 11,
            Refusal::TapeSpent => 12,
            Refusal::ListFull => 13,
        }
    }
}

/// The refusal, 12 or 13, of a command whose protocol lacks words or room.
impl From<Shortage> for Refusal {
    ghost from_gives = { λ shortage refusal. refusal ≡ spec.shortage_refusal shortage };

    fn from(shortage: Shortage) -> Refusal {
        match shortage {
            Shortage::TapeSpent => Refusal::TapeSpent,
            Shortage::ListFull => Refusal::ListFull,
        }
    }
}
