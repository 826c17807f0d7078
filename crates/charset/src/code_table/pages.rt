ghost use Rattle.std.specs.Prelude.{◌≡◌};
ghost use Rattle.charset.specs.Pages.{page_bytes};
ghost use Rattle.charset.specs.Tables.{bytes_of};

use crate::CodeTable;
use crate::characters::{CHARACTER_COUNT, CHARACTERS};

// EBCDIC page 284, in the fixed order of the characters: space, digits, letters, Ñ, signs.
const EBCDIC_284: [u8; CHARACTER_COUNT] = *b"\x40\
    \xF0\xF1\xF2\xF3\xF4\xF5\xF6\xF7\xF8\xF9\
    \xC1\xC2\xC3\xC4\xC5\xC6\xC7\xC8\xC9\
    \xD1\xD2\xD3\xD4\xD5\xD6\xD7\xD8\xD9\
    \xE2\xE3\xE4\xE5\xE6\xE7\xE8\xE9\
    \x7B\
    \x4B\x4C\x4D\x4E\x50\x5C\x5D\x5E\x60\x61\x6B\x6C\x6D\x6E\x6F\x7A\x7D\x7E\x7F";

/// The code pages that holdings are written in.
#[derive(Clone, Copy, PartialEq, Eq, Debug)]
pub enum CodePage {
    /// Code page 850, in which each character is its own byte.
    Page850,
    /// EBCDIC page 284.
    Page284,
}

impl CodePage {
    // The byte of each character.
    fn bytes(self) -> [u8; CHARACTER_COUNT]
        ensures { result ≡ page_bytes self }
    {
        match self {
            CodePage::Page850 => CHARACTERS,
            CodePage::Page284 => EBCDIC_284,
        }
    }
}

/// The code table of a page.
impl From<CodePage> for CodeTable {
    ghost from_gives = { λ page table. bytes_of table ≡ page_bytes page };

    fn from(page: CodePage) -> CodeTable {
        CodeTable::try_from(page.bytes()).unwrap()
    }
}
