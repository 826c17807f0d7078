ghost use Rattle.std.specs.Prelude.{◌≡◌, ℕ, List, Ok, Err};
ghost use Rattle.charset.specs.Tables.{making, Makes, Made};

use crate::characters::{CHARACTER_COUNT, CHARACTERS};
use crate::{CodeTable, CodeTableRefusal};

/// The code table of 57 bytes, unless one comes twice.
impl TryFrom<[u8; CHARACTER_COUNT]> for CodeTable {
    type Error = CodeTableRefusal;

    ghost try_from_gives = { Makes };

    fn try_from(bytes: [u8; CHARACTER_COUNT]) -> Result<CodeTable, CodeTableRefusal> {
        let mut decoding = [None; 256];
        let mut encoding = [None; 256];
        for (place, &byte) in bytes.iter().enumerate() {
            // Looked up by its place: over a `zip` of bytes and characters the proof does not close.
            let character = CHARACTERS[place];
            if decoding[byte as usize].is_some() {
                return Err(CodeTableRefusal::Repeat(place));
            }
            decoding[byte as usize] = Some(character);
            encoding[character as usize] = Some(byte);
        }
        Ok(CodeTable {
            bytes,
            decoding,
            encoding,
        })
    }
}

impl CodeTable {
    /// Makes this the code table of a list of bytes, one for each character in the fixed order.
    /// A list that is refused leaves it as it was.
    pub fn make(&mut self, bytes: &[u8]) -> Result<(), CodeTableRefusal>
        ensures answer { result ≡ making bytes.now }
        ensures table { Made self.old bytes.now self.new result }
    {
        let listed: [u8; CHARACTER_COUNT] = bytes.try_into().map_err(|_| CodeTableRefusal::Length)?;
        *self = CodeTable::try_from(listed)?;
        Ok(())
    }
}
