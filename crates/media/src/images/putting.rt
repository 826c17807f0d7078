ghost use Rattle.std.specs.Prelude.{◌≡◌, ◌+◌, ◌≤◌, true, [], ◌++◌, length, is_err};
ghost use Rattle.media.specs.Meaning.{putting, Puts};
ghost use Rattle.media.specs.Images.{records_put, places_left, Behind, Encodes, Made, Writes};

use crate::framing::{Framing, RECORD_LENGTH};
use crate::images::Image;
use crate::outputs::{Output, PutRefusal};
use charset::CodeTable;

// The bytes that a record is written as, if it is one.
fn encode_record(table: &CodeTable, offered: &[u8]) -> Option<[u8; RECORD_LENGTH]>
    ensures { Encodes table.now offered.now result }
{
    let mut bytes = <[u8; RECORD_LENGTH]>::try_from(offered).ok()?;
    for byte in &mut bytes {
        *byte = table.encode(*byte)?;
    }
    Some(bytes)
}

// `lent` stands at each method that changes an image, since no invariant can speak of two moments.
impl<'a> Image<'a> {
    /// An image of a volume, of lines as on disks or of blocks as on tapes, with nothing written yet.
    pub fn new(bytes: &'a mut [u8], framing: Framing, table: CodeTable) -> Image<'a>
        ensures made { Made result bytes.old framing table }
        ensures lent { result.bytes.ghost_name ≡ bytes.entry.ghost_name }
    {
        Image {
            bytes,
            position: 0,
            table,
            framing,
        }
    }

    // Writes bytes at a place behind the position.
    fn write_behind(&mut self, place: usize, part: &[u8])
        requires position { self.old.position ≤ place }
        requires room { place + length part.now ≤ length self.old.bytes.now }
        ensures behind { Behind self.old self.new place part.now }
        ensures lent { self.new.bytes.ghost_name ≡ self.old.bytes.ghost_name }
    {
        self.bytes[place..place + part.len()].copy_from_slice(part);
    }

    /// How many bytes are written.
    pub fn written(&self) -> usize
        ensures { result ≡ self.now.position }
    {
        self.position
    }
}

impl<'a> Output for Image<'a> {
    ghost put = { records_put };

    ghost places = { places_left };

    fn places(&self) -> usize {
        (self.bytes.len() - self.position) / self.framing.stride()
    }

    fn put(&mut self, offered: &[u8]) -> Result<(), PutRefusal>
        ensures answer { result ≡ putting offered.now (places_left self.old) }
        ensures puts { Puts offered.now result (records_put self.old) (places_left self.old) (records_put self.new) (places_left self.new) }
        ensures kept { is_err result ≡ true → self.new ≡ self.old }
        ensures writes { Writes self.old self.new offered.now result }
        ensures lent { self.new.bytes.ghost_name ≡ self.old.bytes.ghost_name }
    {
        let text = encode_record(&self.table, offered).ok_or(PutRefusal::NotARecord)?;
        if self.places() == 0 {
            return Err(PutRefusal::NoPlace);
        }
        let place = self.position;
        let framing = self.framing;
        self.write_behind(place, &text);
        self.write_behind(place + RECORD_LENGTH, framing.line_end());
        self.position = place + framing.stride();
        Ok(())
    }
}
