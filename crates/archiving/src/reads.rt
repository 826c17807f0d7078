ghost use Rattle.std.specs.Prelude.{◌≡◌, ◌+◌, ◌≤◌, OnOk};
ghost use Rattle.std.specs.Result.{result_err};
ghost use Rattle.reading.specs.Progress.{progress, after};
ghost use Rattle.rows.specs.Kept.{movements_of, texts_of};
ghost use Rattle.rows.specs.Tables.{rows_in, room_in, Holds};
ghost use Rattle.archiving.specs.Entering.{granted};
ghost use Rattle.archiving.specs.Reads.{stopping, entered, read_of};

use crate::entering::enter;
use crate::refusals::ReadRefusal;
use media::Carrier;
use reading::Reading;
use rows::Tables;

/// How many rows a read has filled.
#[derive(Clone, Copy, PartialEq, Eq, Debug)]
pub struct Counts {
    pub accounts: usize,
    pub movements: usize,
    pub texts: usize,
}

// Offers a record to the reading, and enters it.
fn take(reading: &mut Reading, tables: &mut Tables, offered: &[u8; 80]) -> Result<(), ReadRefusal>
    requires movements { movements_of (rows_in tables.old).accounts ≤ (progress reading.old).taken }
    requires texts { texts_of (rows_in tables.old).movements ≤ (progress reading.old).taken }
    ensures answer { result_err result ≡ stopping (room_in tables.old) (progress reading.old) (rows_in tables.old) offered.now }
    ensures tables { Holds tables.old tables.new (granted result (entered (progress reading.old) offered.now (rows_in tables.old)) (rows_in tables.old)) }
    ensures reading { OnOk result (progress reading.new ≡ after (progress reading.old) offered.now) }
    ensures count { OnOk result ((progress reading.new).taken ≡ (progress reading.old).taken + 1) }
{
    let number = reading.taken() + 1;
    let entry = reading.offer(offered)?;
    enter(tables, &entry).map_err(|table| ReadRefusal::NoRow(table, number))
}

/// Reads the records left on a carrier into tables, which it empties first. It stops at the first record that the reading
/// refuses or that no free row is left for, and otherwise at the carrier's end; nothing is drawn after that.
pub fn read<C: Carrier>(carrier: &mut C, tables: &mut Tables) -> Result<Counts, ReadRefusal>
    ensures answer { result ≡ (read_of (room_in tables.old) (C.Carrier.records carrier.old) (C.Carrier.ending carrier.old)).answer }
    ensures tables { Holds tables.old tables.new (read_of (room_in tables.old) (C.Carrier.records carrier.old) (C.Carrier.ending carrier.old)).rows }
    ensures left { C.Carrier.records carrier.new ≡ (read_of (room_in tables.old) (C.Carrier.records carrier.old) (C.Carrier.ending carrier.old)).left }
    ensures ending { C.Carrier.ending carrier.new ≡ C.Carrier.ending carrier.old }
    ensures volumes { C.Carrier.volumes carrier.new ≡ C.Carrier.volumes carrier.old }
{
    tables.clear();
    let mut reading = Reading::new();
    let mut offered = [b' '; 80];
    while carrier
        .draw(&mut offered)
        .map_err(|fault| ReadRefusal::Carrier(fault, reading.taken() + 1))?
    {
        take(&mut reading, tables, &offered)?;
    }
    reading.close()?;
    Ok(Counts {
        accounts: tables.accounts.len(),
        movements: tables.movements.len(),
        texts: tables.texts.len(),
    })
}
