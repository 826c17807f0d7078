ghost use Rattle.std.specs.Prelude.{◌≡◌, ◌+◌, ◌^◌, ◌<◌, length};
ghost use Rattle.media.specs.Bytes.{told, standing, contents, Decodes};
ghost use Rattle.media.specs.Volumes.{contents_of, looked};

use crate::carriers::{Carrier, Fault};
use crate::framing::{Framing, RECORD_LENGTH};
use crate::volumes::{Volume, VolumeFault};
use charset::CodeTable;

/// The fault that a volume tells: it is one volume, named 1.
impl From<VolumeFault> for Fault {
    ghost from_gives = { λ fault gives. gives ≡ told fault };

    fn from(fault: VolumeFault) -> Fault {
        let (number, place) = match fault {
            VolumeFault::Frame(place) => (21, place),
            VolumeFault::Character(place) => (22, place),
        };
        Fault {
            number,
            place,
            volume: 1,
        }
    }
}

impl<'a> Volume<'a> {
    /// The volume that lies in the bytes: lines as on disks, or blocks as on tapes.
    pub fn new(bytes: &'a [u8], framing: Framing, table: CodeTable) -> Volume<'a>
        ensures { contents_of result ≡ contents framing table bytes.now 0 }
    {
        Volume {
            bytes,
            position: 0,
            table,
            framing,
        }
    }

    // The record at the position, none where the volume ends clean there.
    fn look(&self) -> Result<Option<[u8; RECORD_LENGTH]>, VolumeFault>
        ensures { result ≡ looked self.now }
    {
        record_at(
            self.framing,
            &self.table,
            &self.bytes[self.position..],
            self.position,
        )
    }
}

impl<'a> Carrier for Volume<'a> {
    ghost records = { λ v. (contents_of v).records };

    ghost ending = { λ v. (contents_of v).ending };

    ghost volumes = { λ v. 1 };

    fn volumes(&self) -> u16 {
        1
    }

    fn draw(&mut self, into: &mut [u8; RECORD_LENGTH]) -> Result<bool, Fault> {
        let Some(characters) = self.look()? else {
            return Ok(false);
        };
        *into = characters;
        self.position += self.framing.stride();
        Ok(true)
    }
}

// The record at a byte place, none where the volume ends clean there; `rest` are the bytes from that place on.
fn record_at(
    framing: Framing,
    table: &CodeTable,
    rest: &[u8],
    place: usize,
) -> Result<Option<[u8; RECORD_LENGTH]>, VolumeFault>
    requires { place + length rest.now < 2 ^ 64 }
    ensures { result ≡ standing framing table.now rest.now place }
{
    let stride = framing.stride();
    if rest.is_empty() {
        return Ok(None);
    }
    if rest.len() < stride {
        return Err(VolumeFault::Frame(place));
    }
    if !framing.is_line_end(&rest[RECORD_LENGTH..stride]) {
        return Err(VolumeFault::Frame(place + RECORD_LENGTH));
    }
    let text = rest[0..RECORD_LENGTH].try_into().unwrap();
    Ok(Some(decode_record(table, text, place)?))
}

// The characters that 80 bytes read as; `place` is the byte place of the first.
fn decode_record(
    table: &CodeTable,
    text: [u8; RECORD_LENGTH],
    place: usize,
) -> Result<[u8; RECORD_LENGTH], VolumeFault>
    requires { place + 80 < 2 ^ 64 }
    ensures { Decodes table.now text place result }
{
    let mut characters = text;
    for (i, character) in characters.iter_mut().enumerate() {
        *character = table
            .decode(*character)
            .ok_or(VolumeFault::Character(place + i))?;
    }
    Ok(characters)
}
