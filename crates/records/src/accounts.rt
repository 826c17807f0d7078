ghost use Rattle.std.specs.Prelude.{◌≡◌, IfOk};
ghost use Rattle.std.specs.Result.{result_err};
ghost use Rattle.records.specs.Checks.{judged};
ghost use Rattle.records.specs.Rules.{number_checks, period_checks, account_checks};
ghost use Rattle.records.specs.Values.{account_number_in, period_in, account_in};

use crate::columns::{
    Columns, ENTITY, NUMBER, Number, OFFICE, Short, Wide, ask, currency, date, digits, mark,
    short_digits, spaces,
};
use crate::refusals::{FieldRefusal, Question};
use values::{AccountHead, AccountNumber, Balance, Period};

const FIRST_DAY: Short = Columns { from: 21, to: 26 };

const LAST_DAY: Short = Columns { from: 27, to: 32 };

const KEY: Number = Columns { from: 33, to: 33 };

const AMOUNT: Number = Columns { from: 34, to: 47 };

const CURRENCY: Short = Columns { from: 48, to: 50 };

const MODALITY: Number = Columns { from: 51, to: 51 };

const FREE: Wide = Columns { from: 78, to: 80 };

fn account_number(offered: &[u8; 80]) -> Result<AccountNumber, FieldRefusal>
    ensures refusal { result_err result ≡ judged number_checks offered.now }
    ensures number { IfOk result (λ n. n ≡ account_number_in offered.now) }
{
    let entity = short_digits(offered, ENTITY)?;
    let office = short_digits(offered, OFFICE)?;
    let number = digits(offered, NUMBER)?;
    Ok(AccountNumber {
        entity,
        office,
        number,
    })
}

fn period(offered: &[u8; 80]) -> Result<Period, FieldRefusal>
    ensures refusal { result_err result ≡ judged period_checks offered.now }
    ensures period { IfOk result (λ p. p ≡ period_in offered.now) }
{
    let first = date(offered, FIRST_DAY)?;
    let last = date(offered, LAST_DAY)?;
    ask(Question::Agreement, LAST_DAY, last.not_before(first))?;
    Ok(Period { first, last })
}

/// Reads the numbers of an account record.
#[tactic(auto, using(crate::proofs::Marks::marks))]
pub fn read_account(offered: &[u8; 80]) -> Result<AccountHead, FieldRefusal>
    ensures refusal { result_err result ≡ judged account_checks offered.now }
    ensures head { IfOk result (λ h. h ≡ account_in offered.now) }
{
    let number = account_number(offered)?;
    let period = period(offered)?;
    let initial = Balance {
        key: mark(offered, KEY)?,
        amount: digits(offered, AMOUNT)?,
    };
    let currency = currency(offered, CURRENCY)?;
    let modality = mark(offered, MODALITY)?;
    spaces(offered, FREE)?;
    Ok(AccountHead {
        number,
        period,
        initial,
        currency,
        modality,
    })
}
