ghost use Rattle.std.specs.Prelude.{◌≡◌, length, if◌then◌else◌, Some, OnOk, is_ok};
ghost use Rattle.fields.specs.Decimal.{fits, decimal, number as number_in, WrittenBack};

/// A number that has more digits than its field.
#[derive(Clone, Copy, PartialEq, Eq, Debug)]
pub struct TooWide;

/// The number that a field spells in decimal digits, unless a byte is no digit or the number passes 64 bits.
#[tactic(auto, using(crate::proofs::Decimal::reading))]
pub fn read_number(field: &[u8]) -> Option<u64>
    ensures value { result ≡ number_in field.now }
    ensures back { WrittenBack field.now result }
{
    // A `try_fold` would say the same steps in a closure, and is no plainer.
    let mut value: u64 = 0;
    for &byte in field {
        if !byte.is_ascii_digit() {
            return None;
        }
        value = value.checked_mul(10)?.checked_add(u64::from(byte - b'0'))?;
    }
    Some(value)
}

/// Fills a field with a number in decimal digits, with zeros in front; one that has too many digits is refused, and
/// leaves the field as it was.
#[tactic(auto, using(crate::proofs::Decimal::writing))]
pub fn write_number(field: &mut [u8], number: u64) -> Result<(), TooWide>
    ensures answer { is_ok result ≡ fits (length field.old) number }
    ensures written { field.new ≡ (if fits (length field.old) number then decimal (length field.old) number else field.old) }
    ensures back { OnOk result (number_in field.new ≡ Some number) }
{
    if !has_room(field.len(), number) {
        return Err(TooWide);
    }
    let mut rest = number;
    // by index: a proof knows nothing of what is written through a reversed `iter_mut`
    for place in (0..field.len()).rev() {
        field[place] = b'0' + (rest % 10) as u8;
        rest /= 10;
    }
    Ok(())
}

// Whether so many digits can spell a number.
fn has_room(width: usize, number: u64) -> bool
    ensures { result ≡ fits width number }
{
    number
        .checked_ilog10()
        .is_none_or(|power| (power as usize) < width)
}
