ghost use Rattle.std.specs.Prelude.{◌≡◌, ◌+◌, ◌≤◌, [], length, Ok};
ghost use Rattle.composing.specs.Building.{so_far};
ghost use Rattle.composing.specs.Parts.{spelled, plain, spaces as spaces_of, spelled_or_spaces, added};

use crate::refusals::Unfit;
use fields::{write_blank, write_number};

/// A record that is composed from the left. After a number that does not fit, it still keeps the places of those to
/// come.
// The buffer and how far it is filled stand side by side: a record has just 80 characters, and no heap is used.
#[derive(Clone, Copy)]
pub(crate) struct Composer {
    characters: [u8; 80],
    filled: usize,
    unfit: Option<Unfit>,
}

// Each method slices its own part, and asks for its room: a `&mut` part of an array handed out by a method gets no proof.
impl Composer {
    /// No column is filled.
    pub(crate) fn new() -> Composer
        ensures parts { so_far result ≡ Ok [] }
        ensures filled { result.filled ≡ 0 }
    {
        Composer {
            characters: [b' '; 80],
            filled: 0,
            unfit: None,
        }
    }

    /// The next columns hold a number in decimal digits.
    pub(crate) fn number(mut self, width: usize, number: u64) -> Composer
        requires { self.filled + width ≤ 80 }
        ensures parts { so_far result ≡ added (so_far self) (spelled width number) }
        ensures filled { result.filled ≡ self.filled + width }
    {
        let from = self.filled;
        self.filled = from + width;
        if write_number(&mut self.characters[from..from + width], number).is_err() {
            let column = (from + 1) as u8;
            self.unfit = self.unfit.or(Some(Unfit { column }));
        }
        self
    }

    /// The next columns hold characters as they are.
    pub(crate) fn text(mut self, part: &[u8]) -> Composer
        requires { self.filled + length part.now ≤ 80 }
        ensures parts { so_far result ≡ added (so_far self) (plain part.now) }
        ensures filled { result.filled ≡ self.filled + length part.now }
    {
        let from = self.filled;
        self.filled = from + part.len();
        self.characters[from..from + part.len()].copy_from_slice(part);
        self
    }

    /// The next columns are spaces.
    pub(crate) fn spaces(mut self, width: usize) -> Composer
        requires { self.filled + width ≤ 80 }
        ensures parts { so_far result ≡ added (so_far self) (spaces_of width) }
        ensures filled { result.filled ≡ self.filled + width }
    {
        let from = self.filled;
        self.filled = from + width;
        write_blank(&mut self.characters[from..from + width]);
        self
    }

    /// The next columns hold a number, or spaces where there is none.
    pub(crate) fn number_or_spaces(self, width: usize, number: Option<u64>) -> Composer
        requires { self.filled + width ≤ 80 }
        ensures parts { so_far result ≡ added (so_far self) (spelled_or_spaces width number) }
        ensures filled { result.filled ≡ self.filled + width }
    {
        match number {
            Some(number) => self.number(width, number),
            None => self.spaces(width),
        }
    }

    /// The record, whose columns are all filled.
    pub(crate) fn complete(self) -> Result<[u8; 80], Unfit>
        requires { self.filled ≡ 80 }
        ensures { result ≡ so_far self }
    {
        self.unfit.map_or(Ok(self.characters), Err)
    }
}
