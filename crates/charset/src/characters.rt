ghost use Rattle.std.specs.Prelude.{◌≡◌};
ghost use Rattle.charset.specs.Characters.{is_character};

/// How many characters there are.
pub const CHARACTER_COUNT: usize = 57;

/// Ñ in code page 850.
pub const ENYE: u8 = 165;

/// The characters in their fixed order, each as its byte in code page 850.
pub const CHARACTERS: [u8; CHARACTER_COUNT] =
    *b" 0123456789ABCDEFGHIJKLMNOPQRSTUVWXYZ\xA5.<(+&*);-/,%_>?:'=\"";

/// Whether a byte is a character. In code page 850 they lie in six runs.
#[tactic(auto, unfolding(crate::specs::Characters::is_character))]
pub fn is_character(byte: u8) -> bool
    ensures { result ≡ is_character byte }
{
    matches!(byte, b' ' | b'"' | b'%'..=b'?' | b'A'..=b'Z' | b'_' | ENYE)
}
