ghost use Rattle.std.specs.Prelude.{◌≡◌, length};
ghost use Rattle.table.specs.Rows.{held, Fills};
ghost use Rattle.recalling.specs.Writing.{writing, Written};
ghost use Rattle.rows.specs.Tables.{rows_in, room_in};
ghost use Rattle.guarantee.specs.Whole.{Promises, ReadLeaves};

use crate::holdings::{read, write};
use crate::runs::{Call, run};
use archiving::{Counts, ReadRefusal};
use media::{Carrier, Output};
use reading::Refusal;
use recalling::WriteRefusal;
use rows::Tables;
use table::{Full, Table};

/// What came of an audit: of the calls, of the two reads and of the write.
#[derive(Clone, Copy, PartialEq, Eq, Debug)]
pub struct Audited {
    pub ran: Result<(), Full>,
    pub first: Result<Counts, ReadRefusal>,
    pub second: Result<Counts, ReadRefusal>,
    pub written: Result<u32, WriteRefusal>,
}

/// Makes calls on a new reading, with their answers in a table; reads two carriers, each into tables of its own; and
/// writes what was read from the first to an output. Its contract states the main promises whole.
pub fn audit<C: Carrier, D: Carrier, O: Output>(
    calls: &[Call<'_>],
    answers: &mut Table<'_, Option<Refusal>>,
    first: &mut C,
    tables: &mut Tables,
    second: &mut D,
    more_tables: &mut Tables,
    output: &mut O,
) -> Audited
    ensures promises { Promises calls.now (length answers.old.rows.now) (held answers.new.rows.now answers.new.filled) (room_in tables.old) (room_in more_tables.old) (C.Carrier.records first.old) (D.Carrier.records second.old) (C.Carrier.ending first.old) (D.Carrier.ending second.old) (C.Carrier.records first.new) (D.Carrier.records second.new) (rows_in tables.new) (rows_in more_tables.new) (O.Output.put output.old) (O.Output.places output.old) (O.Output.put output.new) result }
    ensures first { ReadLeaves tables.old tables.new (C.Carrier.records first.old) (C.Carrier.ending first.old) (C.Carrier.records first.new) result.first }
    ensures second { ReadLeaves more_tables.old more_tables.new (D.Carrier.records second.old) (D.Carrier.ending second.old) (D.Carrier.records second.new) result.second }
    ensures written { result.written ≡ writing (rows_in tables.new) (O.Output.places output.old) }
    ensures output { Written (rows_in tables.new) (O.Output.put output.old) (O.Output.places output.old) (O.Output.put output.new) (O.Output.places output.new) result.written }
    ensures answers { Fills answers.old.rows.now answers.new.rows.now answers.new.filled (held answers.new.rows.now answers.new.filled) }
{
    let ran = run(calls, answers);
    let first = read(first, tables);
    let second = read(second, more_tables);
    let written = write(&tables.statement(), output);
    Audited {
        ran,
        first,
        second,
        written,
    }
}
