ghost use Rattle.std.specs.Prelude.{◌≡◌};
ghost use Rattle.archiving.specs.Numbers.{read_notice};
ghost use Rattle.archiving.specs.declared.refusals.ReadRefusal.TheVariants.{Reading};

use media::Fault;
use reading::{Refusal, Told};
use rows::{Layer, Notice, TableKind};

/// Why a holding is not read to its end.
#[derive(Clone, Copy, PartialEq, Eq, Debug)]
pub enum ReadRefusal {
    /// The carrier ends in this fault, where the record of this number would come.
    Carrier(Fault, u32),
    /// The reading refuses a record, or its close.
    Reading(Refusal),
    /// This table has no free row for the record of this number.
    NoRow(TableKind, u32),
}

impl From<Refusal> for ReadRefusal {
    ghost from_gives = { λ refusal stopped. stopped ≡ Reading refusal };

    fn from(refusal: Refusal) -> ReadRefusal {
        ReadRefusal::Reading(refusal)
    }
}

/// What a refusal to read tells.
impl From<ReadRefusal> for Notice {
    ghost from_gives = { λ refusal notice. notice ≡ read_notice refusal };

    fn from(refusal: ReadRefusal) -> Notice {
        match refusal {
            ReadRefusal::Carrier(fault, record) => Notice {
                layer: Layer::Carrier,
                number: fault.number,
                record,
                place: fault.place,
                volume: fault.volume,
            },
            ReadRefusal::Reading(refusal) => {
                // As in recalling: no crate below both knows a refusal of a reading and a notice.
                let told = Told::from(refusal);
                Notice {
                    layer: Layer::Reading,
                    number: told.number,
                    record: told.record,
                    place: usize::from(told.column),
                    volume: 0,
                }
            }
            ReadRefusal::NoRow(table, record) => Notice {
                layer: Layer::Tables,
                number: 31,
                record,
                place: usize::from(table.number()),
                volume: 0,
            },
        }
    }
}
