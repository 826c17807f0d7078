ghost use Rattle.std.specs.Prelude.{◌≡◌, Some};
ghost use Rattle.fields.specs.Modalities.{modality_of, modality_digit, IsModalityOf};

use crate::digits::UnknownDigit;

/// The modality of a statement: how much it tells of each movement.
#[derive(Clone, Copy, PartialEq, Eq, Debug)]
pub enum Modality {
    First = 1,
    Second = 2,
    Third = 3,
}

/// The modality that a digit stands for.
impl TryFrom<u64> for Modality {
    type Error = UnknownDigit;

    ghost try_from_gives = { IsModalityOf };

    fn try_from(digit: u64) -> Result<Modality, UnknownDigit> {
        match digit {
            1 => Ok(Modality::First),
            2 => Ok(Modality::Second),
            3 => Ok(Modality::Third),
            _ => Err(UnknownDigit),
        }
    }
}

/// The digit of a modality.
impl From<Modality> for u64 {
    ghost from_gives = { λ modality digit. (digit ≡ modality_digit modality) × (modality_of digit ≡ Some modality) };

    fn from(modality: Modality) -> u64 {
        modality as u64
    }
}
