ghost use Rattle.std.specs.Prelude.{◌≡◌, ◌+◌, OnOk};
ghost use Rattle.std.specs.Result.{result_err};
ghost use Rattle.reading.specs.Progress.{progress, after as after_record};
ghost use Rattle.recalling.specs.Checking.{made_or_none, trying, offering, checking};
ghost use Rattle.rows.specs.Kept.{rows_lent};

use crate::compositions::Composition;
use crate::counts::check_counts;
use crate::refusals::TableRefusal;
use composing::{Unfit, compose_file_end};
use reading::Reading;
use rows::Statement;

// Offers a composed record to a reading.
fn offer_composed(
    reading: &mut Reading,
    composed: Result<[u8; 80], Unfit>,
) -> Result<(), TableRefusal>
    ensures refusal { result_err result ≡ trying (progress reading.old) composed }
    ensures after { OnOk result (progress reading.new ≡ after_record (progress reading.old) (made_or_none composed)) }
    ensures one_more { OnOk result ((progress reading.new).taken ≡ (progress reading.old).taken + 1) }
{
    let number = reading.taken() + 1;
    let characters = composed.map_err(|unfit| TableRefusal::Unfit(number, unfit.column))?;
    reading.offer(&characters)?;
    Ok(())
}

// Offers the records of a statement to a new reading: how many they are, or why one is not taken.
fn offer_all(statement: &Statement) -> Result<u32, TableRefusal>
    ensures { result ≡ offering (rows_lent statement.now) }
{
    let mut reading = Reading::new();
    for composed in Composition::new(statement) {
        offer_composed(&mut reading, composed)?;
    }
    let file_end = compose_file_end(reading.taken());
    offer_composed(&mut reading, file_end)?;
    Ok(reading.taken())
}

/// Whether the tables are a statement: how many records it has, or why they are none.
pub fn check_tables(statement: &Statement) -> Result<u32, TableRefusal>
    ensures { result ≡ checking (rows_lent statement.now) }
{
    check_counts(statement)?;
    offer_all(statement)
}
