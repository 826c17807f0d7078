ghost use Rattle.std.specs.Prelude.{◌≤◌, length};

use crate::framing::Framing;
use charset::CodeTable;

mod drawing;

/// A carrier over the bytes of one volume, which it borrows and does not copy.
// Framing and table stand beside one another, as in an image: the rules ask for a plain code table in this struct.
#[derive(Drop)]
pub struct Volume<'a> {
    bytes: &'a [u8],
    // Beside the bytes, which stay whole: the place of a fault is counted from their start.
    position: usize,
    table: CodeTable,
    framing: Framing,
    ghost within: { position ≤ length bytes.now },
}

/// What can be wrong in the bytes of a volume, with the byte place.
#[derive(Clone, Copy, PartialEq, Eq, Debug)]
pub enum VolumeFault {
    /// The bytes are too few for a record, or its line end is missing.
    Frame(usize),
    /// A byte that reads as no character.
    Character(usize),
}
