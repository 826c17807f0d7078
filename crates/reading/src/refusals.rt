ghost use Rattle.std.specs.Prelude.{◌≡◌};
ghost use Rattle.reading.specs.Numbers.{told};
ghost use Rattle.reading.specs.declared.refusals.Cause.TheVariants.{Code, Field};

use crate::kinds::UnknownCode;
use records::FieldRefusal;

/// Why a record is not taken, or a reading not closed.
#[derive(Clone, Copy, PartialEq, Eq, Debug)]
pub enum Cause {
    /// It is not 80 bytes long.
    Length,
    /// The byte in this column is no character.
    Character(u8),
    /// Its code is none of the six.
    Code,
    /// Its kind may not follow the records taken.
    Order,
    /// Its record number is too large.
    RecordLimit,
    /// A field fails a question.
    Field(FieldRefusal),
    /// The records taken are no whole file.
    Unfinished,
}

/// A refusal: its cause, and the number of the record that it meets.
#[derive(Clone, Copy, PartialEq, Eq, Debug)]
pub struct Refusal {
    pub cause: Cause,
    pub record: u32,
}

/// What a refusal tells; the column is 0 where it tells none.
#[derive(Clone, Copy, PartialEq, Eq, Debug)]
pub struct Told {
    /// A number and no enum: the rules number refusals, and two causes have the number 8.
    pub number: u16,
    pub record: u32,
    // 0 and no Option where there is none: the rules tell 0 there.
    pub column: u8,
}

impl From<FieldRefusal> for Cause {
    ghost from_gives = { λ refusal cause. cause ≡ Field refusal };

    fn from(refusal: FieldRefusal) -> Cause {
        Cause::Field(refusal)
    }
}

impl From<UnknownCode> for Cause {
    ghost from_gives = { λ _ cause. cause ≡ Code };

    fn from(_unknown: UnknownCode) -> Cause {
        Cause::Code
    }
}

/// What a refusal tells: each cause has its number, and its column or none.
impl From<Refusal> for Told {
    ghost from_gives = { λ refusal answer. answer ≡ told refusal };

    fn from(refusal: Refusal) -> Told {
        let (number, column) = match refusal.cause {
            Cause::Length => (1, 0),
            Cause::Character(column) => (2, column),
            Cause::Code => (3, 1),
            Cause::Order => (4, 1),
            Cause::RecordLimit => (8, 1),
            Cause::Field(refusal) => (refusal.question.number(), refusal.column),
            Cause::Unfinished => (9, 0),
        };
        Told {
            number,
            record: refusal.record,
            column,
        }
    }
}
