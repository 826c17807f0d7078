ghost use Rattle.std.specs.Prelude.{◌≡◌, ◌≤◌, true, length, take};
ghost use Rattle.media.specs.Bytes.{reads_clean};

use crate::framing::Framing;
use charset::CodeTable;

mod putting;

/// An output over the caller's bytes: the image of a volume that is being written.
#[derive(Drop)]
pub struct Image<'a> {
    bytes: &'a mut [u8],
    // Beside the bytes: they are the caller's, and no heap is used.
    position: usize,
    table: CodeTable,
    framing: Framing,
    ghost within: { position ≤ length bytes.now },
    ghost clean: { reads_clean framing table (take position bytes.now) ≡ true },
}
