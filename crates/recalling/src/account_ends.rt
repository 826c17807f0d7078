ghost use Rattle.std.specs.Prelude.{◌≡◌, ◌-◌, ◌^◌, min};
ghost use Rattle.composing.specs.Layouts.{account_end_layout};
ghost use Rattle.composing.specs.Parts.{composed};
ghost use Rattle.values.specs.Balances.{final_amount};
ghost use Rattle.recalling.specs.Caps.{capped_account};
ghost use Rattle.recalling.specs.Statements.{turned_over, close_of};

use composing::{AccountClose, Unfit, compose_account_end};
use rows::{AccountRow, MovementRow};
use values::OpenAccount;

/// An account after its own movements. A count or a total that has no room for them stays at the largest.
pub fn turned_over(account: &AccountRow, own: &[MovementRow]) -> OpenAccount
    ensures { result ≡ capped_account (turned_over account.now own.now) }
{
    own.iter()
        .fold(OpenAccount::new(account.head), |open, row| {
            open.turned(row.movement.key, row.movement.amount)
        })
}

// How far the final balance is from zero.
fn final_amount(account: &OpenAccount) -> u64
    ensures { result ≡ min (final_amount account.now) (2 ^ 64 - 1) }
{
    u64::try_from(account.final_amount()).unwrap_or(u64::MAX)
}

/// Composes the end of an account with these movements.
pub(crate) fn compose_end(account: &AccountRow, own: &[MovementRow]) -> Result<[u8; 80], Unfit>
    ensures { result ≡ composed (account_end_layout (close_of account.now own.now)) }
{
    let turned = turned_over(account, own);
    compose_account_end(&AccountClose {
        number: account.head.number,
        debits: turned.debits,
        credits: turned.credits,
        key: account.final_key,
        amount: final_amount(&turned),
        currency: account.head.currency,
    })
}
