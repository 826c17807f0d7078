ghost use Rattle.std.specs.Prelude.{◌≡◌, length};
ghost use Rattle.table.specs.Rows.{held, Fills};
ghost use Rattle.guarantee.specs.Runs.{Ran};

use reading::{Reading, Refusal};
use table::{Full, Table};

/// A call on a reading.
#[derive(Clone, Copy, PartialEq, Eq, Debug)]
pub enum Call<'a> {
    /// Offers these bytes.
    Offer(&'a [u8]),
    /// Closes.
    Close,
}

/// Makes calls on a new reading, in order, and enters each one's answer in a table, which it empties first: nothing where
/// the call was granted, or the refusal. It stops where no row is free for an answer.
pub fn run(calls: &[Call<'_>], answers: &mut Table<'_, Option<Refusal>>) -> Result<(), Full>
    ensures ran { Ran calls.now (length answers.old.rows.now) (held answers.new.rows.now answers.new.filled) result }
    ensures rows { Fills answers.old.rows.now answers.new.rows.now answers.new.filled (held answers.new.rows.now answers.new.filled) }
    ensures lent { answers.new.rows.ghost_name ≡ answers.old.rows.ghost_name }
{
    answers.clear();
    let mut reading = Reading::new();
    for call in calls {
        let answer = match *call {
            Call::Offer(offered) => reading.offer(offered).err(),
            Call::Close => reading.close().err(),
        };
        answers.push(answer)?;
    }
    Ok(())
}
