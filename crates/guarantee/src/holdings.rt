ghost use Rattle.std.specs.Prelude.{◌≡◌, ℕ, ◌≤◌, true, List, length, is_ok, is_err};
ghost use Rattle.rows.specs.Tables.{rows_in, room_in, Holds};
ghost use Rattle.archiving.specs.Reads.{read_of};
ghost use Rattle.rows.specs.Kept.{rows_lent};
ghost use Rattle.recalling.specs.Writing.{writing, Written};
ghost use Rattle.guarantee.specs.Files.{CorrectFile};
ghost use Rattle.guarantee.specs.KeptIn.{kept_rows};
ghost use Rattle.guarantee.specs.Promises.{RowForEach, ReadsWhole, WritesBack};

use archiving::{Counts, ReadRefusal};
use media::{Carrier, Output};
use recalling::WriteRefusal;
use rows::{Statement, Tables};

/// Reads the records left on a carrier into tables. With a row for each record it succeeds exactly on a correct file with a
/// clean end, and otherwise names the first thing wrong; what it leaves in the tables is what the file is kept in.
pub fn read<C: Carrier>(carrier: &mut C, tables: &mut Tables) -> Result<Counts, ReadRefusal>
    ensures answer { result ≡ (read_of (room_in tables.old) (C.Carrier.records carrier.old) (C.Carrier.ending carrier.old)).answer }
    ensures tables { Holds tables.old tables.new (read_of (room_in tables.old) (C.Carrier.records carrier.old) (C.Carrier.ending carrier.old)).rows }
    ensures left { C.Carrier.records carrier.new ≡ (read_of (room_in tables.old) (C.Carrier.records carrier.old) (C.Carrier.ending carrier.old)).left }
    ensures ending { C.Carrier.ending carrier.new ≡ C.Carrier.ending carrier.old }
    ensures volumes { C.Carrier.volumes carrier.new ≡ C.Carrier.volumes carrier.old }
    ensures whole { RowForEach (room_in tables.old) (C.Carrier.records carrier.old) → ReadsWhole (C.Carrier.records carrier.old) (C.Carrier.ending carrier.old) result (C.Carrier.records carrier.new) }
    ensures kept { RowForEach (room_in tables.old) (C.Carrier.records carrier.old) → (c : CorrectFile (C.Carrier.records carrier.old)) → rows_in tables.new ≡ kept_rows c.accounts }
{
    archiving::read(carrier, tables)
}

/// Writes tables to an output. What a correct file is kept in is written, with a place for each record, as exactly that
/// file's records behind those put before.
pub fn write<O: Output>(statement: &Statement, output: &mut O) -> Result<u32, WriteRefusal>
    ensures answer { result ≡ writing (rows_lent statement.now) (O.Output.places output.old) }
    ensures written { Written (rows_lent statement.now) (O.Output.put output.old) (O.Output.places output.old) (O.Output.put output.new) (O.Output.places output.new) result }
    ensures kept { is_err result ≡ true → output.new ≡ output.old }
    ensures back { (records : List (List ℕ)) → (c : CorrectFile records) → rows_lent statement.now ≡ kept_rows c.accounts → length records ≤ O.Output.places output.old → WritesBack records (O.Output.put output.old) (O.Output.places output.old) result (O.Output.put output.new) }
{
    recalling::write(statement, output)
}
