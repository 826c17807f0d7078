ghost use Rattle.std.specs.Prelude.{◌≡◌, Some};
ghost use Rattle.fields.specs.Keys.{key_of, key_digit, IsKeyOf};

use crate::digits::UnknownDigit;

/// The side of an amount: a debit is taken from the account, a credit is paid in.
#[derive(Clone, Copy, PartialEq, Eq, Debug)]
pub enum Key {
    Debit = 1,
    Credit = 2,
}

/// The key that a digit stands for.
impl TryFrom<u64> for Key {
    type Error = UnknownDigit;

    ghost try_from_gives = { IsKeyOf };

    fn try_from(digit: u64) -> Result<Key, UnknownDigit> {
        match digit {
            1 => Ok(Key::Debit),
            2 => Ok(Key::Credit),
            _ => Err(UnknownDigit),
        }
    }
}

/// The digit of a key.
impl From<Key> for u64 {
    ghost from_gives = { λ key digit. (digit ≡ key_digit key) × (key_of digit ≡ Some key) };

    fn from(key: Key) -> u64 {
        key as u64
    }
}
