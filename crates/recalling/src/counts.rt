ghost use Rattle.std.specs.Prelude.{◌≡◌};
ghost use Rattle.rows.specs.Kept.{movements_of, rows_lent, texts_of};
ghost use Rattle.recalling.specs.Checking.{counting};

use crate::refusals::TableRefusal;
use rows::{AccountRow, MovementRow, Statement};

// How many movements the accounts have. One function for both counts would take a closure and clauses for it.
#[tactic(auto, using(crate::proofs::Counting::sum_is))]
fn movements_of(accounts: &[AccountRow]) -> u128
    ensures { result ≡ movements_of accounts.now }
{
    accounts.iter().map(|row| u128::from(row.movements)).sum()
}

// How many texts the movements have.
#[tactic(auto, using(crate::proofs::Counting::sum_is))]
fn texts_of(movements: &[MovementRow]) -> u128
    ensures { result ≡ texts_of movements.now }
{
    movements.iter().map(|row| u128::from(row.texts)).sum()
}

/// Whether there are just as many movements and texts as their rows count.
pub(crate) fn check_counts(statement: &Statement) -> Result<(), TableRefusal>
    ensures { result ≡ counting (rows_lent statement.now) }
{
    if movements_of(statement.accounts) != statement.movements.len() as u128 {
        return Err(TableRefusal::Movements);
    }
    if texts_of(statement.movements) != statement.texts.len() as u128 {
        return Err(TableRefusal::Texts);
    }
    Ok(())
}
