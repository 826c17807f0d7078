ghost use Rattle.std.specs.Prelude.{◌≡◌};
ghost use Rattle.recalling.specs.Numbers.{table_notice, write_notice};
ghost use Rattle.recalling.specs.declared.refusals.TableRefusal.TheVariants.{Refused};
ghost use Rattle.recalling.specs.declared.refusals.WriteRefusal.TheVariants.{Tables};

use reading::{Refusal, Told};
use rows::{Layer, Notice};

/// Why tables are no statement.
#[derive(Clone, Copy, PartialEq, Eq, Debug)]
pub enum TableRefusal {
    /// The accounts count more or fewer movements than there are rows.
    Movements,
    /// The movements count more or fewer texts than there are rows.
    Texts,
    /// In this record a number is too wide for its field, which begins in this column; it is the leftmost.
    Unfit(u32, u8),
    /// A reading of the composed records refuses one.
    Refused(Refusal),
}

/// Why tables are not written.
#[derive(Clone, Copy, PartialEq, Eq, Debug)]
pub enum WriteRefusal {
    /// They are no statement.
    Tables(TableRefusal),
    /// The output has too few places for the statement's records.
    NoPlaces,
}

impl From<TableRefusal> for WriteRefusal {
    ghost from_gives = { λ refusal answer. answer ≡ Tables refusal };

    fn from(refusal: TableRefusal) -> WriteRefusal {
        WriteRefusal::Tables(refusal)
    }
}

impl From<Refusal> for TableRefusal {
    ghost from_gives = { λ refusal answer. answer ≡ Refused refusal };

    fn from(refusal: Refusal) -> TableRefusal {
        TableRefusal::Refused(refusal)
    }
}

/// What a refusal of tables tells.
impl From<TableRefusal> for Notice {
    ghost from_gives = { λ refusal notice. notice ≡ table_notice refusal };

    fn from(refusal: TableRefusal) -> Notice {
        let (layer, number, record, place) = match refusal {
            TableRefusal::Movements => (Layer::Tables, 32, 0, 1),
            TableRefusal::Texts => (Layer::Tables, 32, 0, 2),
            TableRefusal::Unfit(record, column) => (Layer::Tables, 33, record, column),
            TableRefusal::Refused(refusal) => {
                // As in archiving: no crate below both knows a refusal of a reading and a notice.
                let told = Told::from(refusal);
                (Layer::Reading, told.number, told.record, told.column)
            }
        };
        Notice {
            layer,
            number,
            record,
            place: usize::from(place),
            volume: 0,
        }
    }
}

/// What a refusal to write tells.
impl From<WriteRefusal> for Notice {
    ghost from_gives = { λ refusal notice. notice ≡ write_notice refusal };

    fn from(refusal: WriteRefusal) -> Notice {
        match refusal {
            WriteRefusal::Tables(refusal) => Notice::from(refusal),
            WriteRefusal::NoPlaces => Notice {
                layer: Layer::Tables,
                number: 34,
                record: 0,
                place: 0,
                volume: 0,
            },
        }
    }
}
