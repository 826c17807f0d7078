ghost use Rattle.std.specs.Prelude.{◌≡◌, length, None};
ghost use Rattle.charset.specs.Characters.{characters};
ghost use Rattle.charset.specs.Coding.{first_repeat, Answers};

use crate::characters::CHARACTER_COUNT;

mod coding;
mod making;
mod pages;
mod refusals;

pub use pages::CodePage;

/// A code table: which byte stands for each character on a carrier.
#[derive(Clone, Copy)]
pub struct CodeTable {
    bytes: [u8; CHARACTER_COUNT],
    decoding: [Option<u8>; 256],
    encoding: [Option<u8>; 256],
    ghost complete: { length bytes ≡ 57 },
    ghost apart: { first_repeat bytes ≡ None },
    ghost reads: { Answers decoding bytes characters },
    ghost writes: { Answers encoding characters bytes },
}

/// Why a list of bytes makes no code table.
#[derive(Clone, Copy, PartialEq, Eq, Debug)]
pub enum CodeTableRefusal {
    /// The list does not have one byte for each character.
    Length,
    /// The byte at this place equals an earlier one.
    Repeat(usize),
}
