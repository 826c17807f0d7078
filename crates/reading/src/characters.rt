ghost use Rattle.std.specs.Prelude.{◌≡◌, ◌<◌, length, IfSome};
ghost use Rattle.reading.specs.Offers.{first_bad};

use charset::is_character;

/// The index of the first byte that is no character.
// The rules ask for a loop with an index here.
pub fn first_bad(bytes: &[u8]) -> Option<usize>
    ensures index { result ≡ first_bad bytes.now 0 }
    ensures bound { IfSome result (λ i. i < length bytes.now) }
{
    for (i, byte) in bytes.iter().enumerate() {
        if !is_character(*byte) {
            return Some(i);
        }
    }
    None
}
