ghost use Rattle.std.specs.Prelude.{◌≡◌, ◌+◌, ◌<◌, ◌≤◌, true, [], ◌∷◌, ◌++◌, is_err, Ok};
ghost use Rattle.media.specs.Meaning.{is_record};
ghost use Rattle.recalling.specs.Checking.{made_or_none, checking};
ghost use Rattle.rows.specs.Kept.{rows_lent};
ghost use Rattle.recalling.specs.Statements.{statement_records};
ghost use Rattle.recalling.specs.Writing.{records_of, writing, Written};

use crate::checks::check_tables;
use crate::compositions::Composition;
use crate::refusals::WriteRefusal;
use composing::{Unfit, compose_file_end};
use media::Output;
use rows::Statement;

// Puts a composed record, for which there is a place.
fn put_composed<O: Output>(output: &mut O, composed: Result<[u8; 80], Unfit>)
    requires fit { is_record (made_or_none composed) ≡ true }
    requires place { 0 < O.Output.places output.old }
    ensures put { O.Output.put output.new ≡ O.Output.put output.old ++ (made_or_none composed ∷ []) }
    ensures places { O.Output.places output.new + 1 ≡ O.Output.places output.old }
{
    output.put(&composed.unwrap()).unwrap();
}

// Puts the records of a statement that is checked, for which there are places.
fn put_records<O: Output>(statement: &Statement, records: u32, output: &mut O)
    requires checked { checking (rows_lent statement.now) ≡ Ok records }
    requires places { records ≤ O.Output.places output.old }
    ensures put { O.Output.put output.new ≡ O.Output.put output.old ++ records_of (statement_records (rows_lent statement.now)) }
    ensures places { O.Output.places output.new + records ≡ O.Output.places output.old }
{
    for composed in Composition::new(statement) {
        put_composed(output, composed);
    }
    put_composed(output, compose_file_end(records - 1));
}

/// Writes the tables to an output: how many records were put, or why they are not written. A refusal changes nothing.
pub fn write<O: Output>(statement: &Statement, output: &mut O) -> Result<u32, WriteRefusal>
    ensures answer { result ≡ writing (rows_lent statement.now) (O.Output.places output.old) }
    ensures written { Written (rows_lent statement.now) (O.Output.put output.old) (O.Output.places output.old) (O.Output.put output.new) (O.Output.places output.new) result }
    ensures kept { is_err result ≡ true → output.new ≡ output.old }
{
    let records = check_tables(statement)?;
    if output.places() < records as usize {
        return Err(WriteRefusal::NoPlaces);
    }
    put_records(statement, records, output);
    Ok(records)
}
