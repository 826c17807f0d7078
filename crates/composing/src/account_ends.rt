ghost use Rattle.std.specs.Prelude.{◌≡◌, IfOk};
ghost use Rattle.composing.specs.Layouts.{account_end_layout};
ghost use Rattle.composing.specs.Parts.{composed};
ghost use Rattle.composing.specs.Records.{AccountEndRecord};

use crate::composer::Composer;
use crate::refusals::Unfit;
use fields::Key;
use values::{AccountNumber, Turnover};

/// The values of an account end, whose final key may be absent.
#[derive(Clone, Copy, PartialEq, Eq, Debug)]
pub struct AccountClose {
    pub number: AccountNumber,
    pub debits: Turnover,
    pub credits: Turnover,
    pub key: Option<Key>,
    pub amount: u64,
    pub currency: u32,
}

/// Composes an account end.
#[tactic(auto, using(crate::proofs::Building::chain), unfolding(crate::specs::Parts::composed, crate::specs::Layouts::account_end_layout))]
pub fn compose_account_end(close: &AccountClose) -> Result<[u8; 80], Unfit>
    ensures answer { result ≡ composed (account_end_layout close.now) }
    ensures tells { IfOk result (AccountEndRecord close.now) }
{
    Composer::new()
        .number(2, 33)
        .number(4, u64::from(close.number.entity))
        .number(4, u64::from(close.number.office))
        .number(10, close.number.number)
        .number(5, u64::from(close.debits.count))
        .number(14, close.debits.total)
        .number(5, u64::from(close.credits.count))
        .number(14, close.credits.total)
        .number(1, close.key.map_or(0, u64::from))
        .number(14, close.amount)
        .number(3, u64::from(close.currency))
        .spaces(4)
        .complete()
}
