//! The twelve commands in the order of their codes, each with its row of the table and its protocol;
//! Specification: Table of commands. Below, a and b are the values of the handles in these fields, and all sums,
//! differences and products are modulo 2^32.
ghost use Rattle.machine.specs.Table as codes;

use super::arguments::Arguments;
use super::kind::Kind;
use super::operation::Operation;
use super::row::{self, Row, Use, counts, received_counts};
use Use::{Handle, Position, Unused, Word};
use protocols::lent::{Lists, Tapes};
use protocols::outcome::{Done, Shortage};
use protocols::place::Place;
use protocols::{below, bit, bits, equal, local, multiply, open, reshare, store};

/// Code 1, `store`: the next input becomes a ring value; Specification: Store. Both fields are unused. The provider
/// draws 2 words, each miner receives 1. If all inputs are used, the refusal is 11.
pub struct Store;

impl Operation for Store {
    ghost code = { codes.Store };

    fn row() -> Row {
        Row {
            inputs: 1,
            ..row::ring_row(
                Unused,
                Unused,
                received_counts(1, 1, 1, 0),
                counts(2, 0, 0, 0),
            )
        }
    }

    #[inline(always)]
    #[tactic(auto, using(crate::proofs::Laws::Play::delivery_from_part), unfolding(crate::specs::Steps::protocol))]
    fn play(
        _b: u32,
        arguments: Arguments,
        place: Place,
        tapes: &Tapes,
        lists: &mut Lists,
    ) -> Result<Done, Shortage> {
        store::store(arguments.input, place, tapes, lists)
    }
}

/// Code 2, `add`: a + b of two ring values; Specification: Local commands. No word is drawn or received.
pub struct Add;

impl Operation for Add {
    ghost code = { codes.Add };

    fn row() -> Row {
        row::local_row(Handle, Handle)
    }

    #[inline(always)]
    #[tactic(auto, using(crate::proofs::Laws::Play::delivery_without_draws), unfolding(crate::specs::Steps::protocol))]
    fn play(
        _b: u32,
        arguments: Arguments,
        place: Place,
        _tapes: &Tapes,
        _lists: &mut Lists,
    ) -> Result<Done, Shortage> {
        Ok(Done {
            shares: local::sum(arguments.u, arguments.v),
            place,
        })
    }
}

/// Code 3, `subtract`: a - b of two ring values; Specification: Local commands. No word is drawn or received.
pub struct Subtract;

impl Operation for Subtract {
    ghost code = { codes.Subtract };

    fn row() -> Row {
        row::local_row(Handle, Handle)
    }

    #[inline(always)]
    #[tactic(auto, using(crate::proofs::Laws::Play::delivery_without_draws), unfolding(crate::specs::Steps::protocol))]
    fn play(
        _b: u32,
        arguments: Arguments,
        place: Place,
        _tapes: &Tapes,
        _lists: &mut Lists,
    ) -> Result<Done, Shortage> {
        Ok(Done {
            shares: local::difference(arguments.u, arguments.v),
            place,
        })
    }
}

/// Code 4, `add constant`: a ring value a plus the word in field b; Specification: Local commands. No word is drawn or
/// received.
pub struct AddConstant;

impl Operation for AddConstant {
    ghost code = { codes.AddConstant };

    fn row() -> Row {
        row::local_row(Handle, Word)
    }

    #[inline(always)]
    #[tactic(auto, using(crate::proofs::Laws::Play::delivery_without_draws), unfolding(crate::specs::Steps::protocol))]
    fn play(
        b: u32,
        arguments: Arguments,
        place: Place,
        _tapes: &Tapes,
        _lists: &mut Lists,
    ) -> Result<Done, Shortage> {
        Ok(Done {
            shares: local::constant_sum(arguments.u, b),
            place,
        })
    }
}

/// Code 5, `times constant`: a ring value a times the word in field b; Specification: Local commands. No word is drawn
/// or received.
pub struct TimesConstant;

impl Operation for TimesConstant {
    ghost code = { codes.TimesConstant };

    fn row() -> Row {
        row::local_row(Handle, Word)
    }

    #[inline(always)]
    #[tactic(auto, using(crate::proofs::Laws::Play::delivery_without_draws), unfolding(crate::specs::Steps::protocol))]
    fn play(
        b: u32,
        arguments: Arguments,
        place: Place,
        _tapes: &Tapes,
        _lists: &mut Lists,
    ) -> Result<Done, Shortage> {
        Ok(Done {
            shares: local::constant_multiple(arguments.u, b),
            place,
        })
    }
}

/// Code 6, `multiply`: a times b of two ring values; Specification: Multiply. Each miner draws 2 words and receives 4.
pub struct Multiply;

impl Operation for Multiply {
    ghost code = { codes.Multiply };

    fn row() -> Row {
        row::ring_row(
            Handle,
            Handle,
            received_counts(4, 4, 4, 0),
            counts(0, 2, 2, 2),
        )
    }

    #[inline(always)]
    #[tactic(auto, using(crate::proofs::Laws::Play::delivery_from_part), unfolding(crate::specs::Steps::protocol))]
    fn play(
        _b: u32,
        arguments: Arguments,
        place: Place,
        tapes: &Tapes,
        lists: &mut Lists,
    ) -> Result<Done, Shortage> {
        multiply::multiply(arguments.u, arguments.v, place, tapes, lists)
    }
}

/// Code 7, `reshare`: a ring value a in fresh shares; Specification: Reshare. Field b is unused. Each miner draws 1
/// word and receives 1.
pub struct Reshare;

impl Operation for Reshare {
    ghost code = { codes.Reshare };

    fn row() -> Row {
        row::ring_row(
            Handle,
            Unused,
            received_counts(1, 1, 1, 0),
            counts(0, 1, 1, 1),
        )
    }

    #[inline(always)]
    #[tactic(auto, using(crate::proofs::Laws::Play::delivery_from_part), unfolding(crate::specs::Steps::protocol))]
    fn play(
        _b: u32,
        arguments: Arguments,
        place: Place,
        tapes: &Tapes,
        lists: &mut Lists,
    ) -> Result<Done, Shortage> {
        reshare::reshare(arguments.u, place, tapes, lists)
    }
}

/// Code 8, `bits`: a ring value a as a bit word; Specification: Bits. Field b is unused. Miner 1 draws 15 words, miners
/// 2 and 3 draw 12 each; miners 1, 2 and 3 receive 22, 25 and 25.
pub struct Bits;

impl Operation for Bits {
    ghost code = { codes.Bits };

    fn row() -> Row {
        Row {
            kind: Kind::BitWord,
            ..row::ring_row(
                Handle,
                Unused,
                received_counts(22, 25, 25, 0),
                counts(0, 15, 12, 12),
            )
        }
    }

    #[inline(always)]
    #[tactic(auto, using(crate::proofs::Laws::Play::delivery_from_part), unfolding(crate::specs::Steps::protocol))]
    fn play(
        _b: u32,
        arguments: Arguments,
        place: Place,
        tapes: &Tapes,
        lists: &mut Lists,
    ) -> Result<Done, Shortage> {
        bits::bits(arguments.u, place, tapes, lists)
    }
}

/// Code 9, `bit`: one bit of a bit word a, as the ring value 0 or 1; Specification: Bit. Field b is its position, 0 to
/// 31; for any other word the refusal is 9. Miner 1 draws 3 words, miners 2 and 3 receive 3 each.
pub struct Bit;

impl Operation for Bit {
    ghost code = { codes.Bit };

    fn row() -> Row {
        Row {
            operands: Kind::BitWord,
            ..row::ring_row(
                Handle,
                Position,
                received_counts(0, 3, 3, 0),
                counts(0, 3, 0, 0),
            )
        }
    }

    #[inline(always)]
    #[tactic(auto, using(crate::proofs::Laws::Play::delivery_from_part), unfolding(crate::specs::Steps::protocol))]
    fn play(
        b: u32,
        arguments: Arguments,
        place: Place,
        tapes: &Tapes,
        lists: &mut Lists,
    ) -> Result<Done, Shortage> {
        bit::bit(arguments.u, b, place, tapes, lists)
    }
}

/// Code 10, `equal`: the ring value 1 if two ring values are equal, else 0; Specification: Equal. Miner 1 draws 10
/// words, miners 2 and 3 draw 6 each; miners 1, 2 and 3 receive 11, 15 and 15.
pub struct Equal;

impl Operation for Equal {
    ghost code = { codes.Equal };

    fn row() -> Row {
        row::ring_row(
            Handle,
            Handle,
            received_counts(11, 15, 15, 0),
            counts(0, 10, 6, 6),
        )
    }

    #[inline(always)]
    #[tactic(auto, using(crate::proofs::Laws::Play::delivery_from_part), unfolding(crate::specs::Steps::protocol))]
    fn play(
        _b: u32,
        arguments: Arguments,
        place: Place,
        tapes: &Tapes,
        lists: &mut Lists,
    ) -> Result<Done, Shortage> {
        equal::equal(arguments.u, arguments.v, place, tapes, lists)
    }
}

/// Code 11, `open`: the controller receives fresh shares of a ring value a, and the value is answered as opened word;
/// Specification: Open. Field b is unused, and there is no new value. Each miner draws 1 word and receives 1, the
/// controller receives 3.
pub struct Open;

impl Operation for Open {
    ghost code = { codes.Open };

    fn row() -> Row {
        Row {
            values: 0,
            ..row::ring_row(
                Handle,
                Unused,
                received_counts(1, 1, 1, 3),
                counts(0, 1, 1, 1),
            )
        }
    }

    #[inline(always)]
    #[tactic(auto, using(crate::proofs::Laws::Play::delivery_from_part), unfolding(crate::specs::Steps::protocol))]
    fn play(
        _b: u32,
        arguments: Arguments,
        place: Place,
        tapes: &Tapes,
        lists: &mut Lists,
    ) -> Result<Done, Shortage> {
        open::open(arguments.u, place, tapes, lists)
    }
}

/// Code 12, `below`: bit 31 of a - b of two ring values, as the ring value 0 or 1; Specification: Below. Miner 1 draws
/// 18 words, miners 2 and 3 draw 12 each; miners 1, 2 and 3 receive 22, 28 and 28.
pub struct Below;

impl Operation for Below {
    ghost code = { codes.Below };

    fn row() -> Row {
        row::ring_row(
            Handle,
            Handle,
            received_counts(22, 28, 28, 0),
            counts(0, 18, 12, 12),
        )
    }

    #[inline(always)]
    #[tactic(auto, using(crate::proofs::Laws::Play::delivery_from_part), unfolding(crate::specs::Steps::protocol))]
    fn play(
        _b: u32,
        arguments: Arguments,
        place: Place,
        tapes: &Tapes,
        lists: &mut Lists,
    ) -> Result<Done, Shortage> {
        below::below(arguments.u, arguments.v, place, tapes, lists)
    }
}
