ghost use Rattle.media.specs.Meaning.{capped, joined_records, joined_ending};

use crate::carriers::{Carrier, Fault};
use crate::framing::RECORD_LENGTH;

/// Two carriers read as one holding, the second after the first.
#[derive(Drop)]
pub struct Joined<A, B> {
    pub first: A,
    pub second: B,
}

impl<A: Carrier, B: Carrier> Carrier for Joined<A, B> {
    ghost records = { λ j. joined_records (A.Carrier.records j.first) (A.Carrier.ending j.first) (B.Carrier.records j.second) };

    ghost ending = { λ j. joined_ending (A.Carrier.ending j.first) (A.Carrier.volumes j.first) (B.Carrier.ending j.second) };

    ghost volumes = { λ j. capped (A.Carrier.volumes j.first) (B.Carrier.volumes j.second) };

    fn volumes(&self) -> u16 {
        self.first.volumes().saturating_add(self.second.volumes())
    }

    fn draw(&mut self, into: &mut [u8; RECORD_LENGTH]) -> Result<bool, Fault> {
        if self.first.draw(into)? {
            return Ok(true);
        }
        let before = self.first.volumes();
        self.second.draw(into).map_err(|fault| Fault {
            volume: before.saturating_add(fault.volume),
            ..fault
        })
    }
}
