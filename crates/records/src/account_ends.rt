ghost use Rattle.std.specs.Prelude.{◌≡◌, IfOk, OnOk};
ghost use Rattle.std.specs.Result.{result_err};
ghost use Rattle.records.specs.Checks.{judged};
ghost use Rattle.records.specs.Rules.{same_account_checks, turnover_checks, final_checks, account_end_checks};
ghost use Rattle.records.specs.Values.{key_at, number_at, account_number_in, account_end_in};

use crate::columns::{
    Columns, ENTITY, NUMBER, Number, OFFICE, Short, Wide, ask, currency, digits, mark, same_number,
    spaces,
};
use crate::refusals::{FieldRefusal, Question};
use values::{AccountEnd, AccountHead, Balance, OpenAccount, Turnover};

const DEBITS: Number = Columns { from: 21, to: 25 };

const DEBIT_TOTAL: Number = Columns { from: 26, to: 39 };

const CREDITS: Number = Columns { from: 40, to: 44 };

const CREDIT_TOTAL: Number = Columns { from: 45, to: 58 };

const KEY: Number = Columns { from: 59, to: 59 };

const AMOUNT: Number = Columns { from: 60, to: 73 };

const CURRENCY: Short = Columns { from: 74, to: 76 };

const FREE: Wide = Columns { from: 77, to: 80 };

// The account end names its account.
fn same_account(offered: &[u8; 80], head: &AccountHead) -> Result<(), FieldRefusal>
    ensures refusal { result_err result ≡ judged (same_account_checks head.now) offered.now }
    ensures number { OnOk result (head.now.number ≡ account_number_in offered.now) }
{
    same_number(offered, ENTITY.into(), u64::from(head.number.entity))?;
    same_number(offered, OFFICE.into(), u64::from(head.number.office))?;
    same_number(offered, NUMBER, head.number.number)
}

// It tells the movements of its account.
fn same_turnover(
    offered: &[u8; 80],
    debits: Turnover,
    credits: Turnover,
) -> Result<(), FieldRefusal>
    ensures refusal { result_err result ≡ judged (turnover_checks debits credits) offered.now }
    ensures debits { OnOk result (debits ≡ record { count = number_at 21 25 offered.now; total = number_at 26 39 offered.now }) }
    ensures credits { OnOk result (credits ≡ record { count = number_at 40 44 offered.now; total = number_at 45 58 offered.now }) }
{
    same_number(offered, DEBITS, u64::from(debits.count))?;
    same_number(offered, DEBIT_TOTAL, debits.total)?;
    same_number(offered, CREDITS, u64::from(credits.count))?;
    same_number(offered, CREDIT_TOTAL, credits.total)
}

// The final balance is the one worked out; where it is zero either key is right.
#[tactic(auto, using(crate::proofs::Marks::marks))]
fn final_balance(offered: &[u8; 80], account: &OpenAccount) -> Result<Balance, FieldRefusal>
    ensures refusal { result_err result ≡ judged (final_checks account.now) offered.now }
    ensures balance { IfOk result (λ b. b ≡ record { key = key_at 59 offered.now; amount = number_at 60 73 offered.now }) }
{
    let key = mark(offered, KEY)?;
    ask(Question::Agreement, KEY, account.key_fits(key))?;
    let amount = digits(offered, AMOUNT)?;
    ask(
        Question::Agreement,
        AMOUNT,
        u128::from(amount) == account.final_amount(),
    )?;
    Ok(Balance { key, amount })
}

/// Reads the end of an account.
pub fn read_account_end(
    offered: &[u8; 80],
    account: &OpenAccount,
) -> Result<AccountEnd, FieldRefusal>
    ensures refusal { result_err result ≡ judged (account_end_checks account.now) offered.now }
    ensures end { IfOk result (λ e. e ≡ account_end_in offered.now) }
{
    same_account(offered, &account.head)?;
    same_turnover(offered, account.debits, account.credits)?;
    let last = final_balance(offered, account)?;
    let currency = currency(offered, CURRENCY)?;
    ask(
        Question::Agreement,
        CURRENCY,
        currency == account.head.currency,
    )?;
    spaces(offered, FREE)?;
    Ok(AccountEnd {
        number: account.head.number,
        debits: account.debits,
        credits: account.credits,
        last,
        currency,
    })
}
