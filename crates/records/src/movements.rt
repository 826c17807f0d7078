ghost use Rattle.std.specs.Prelude.{◌≡◌, IfOk};
ghost use Rattle.std.specs.Result.{result_err};
ghost use Rattle.records.specs.Checks.{judged};
ghost use Rattle.records.specs.Rules.{origin_checks, operation_checks, amount_checks, reference_checks, movement_checks};
ghost use Rattle.records.specs.Values.{date_at, key_at, number_at, origin_in, reference_in, movement_in};

use crate::columns::{
    Columns, Number, Short, Wide, ask, common_concept, date, digits, mark, reference, short_digits,
    spaces,
};
use crate::refusals::{FieldRefusal, Question};
use fields::{Date, Modality};
use values::{Balance, Movement, OpenAccount, Period};

const FREE: Wide = Columns { from: 3, to: 6 };

const ORIGIN: Short = Columns { from: 7, to: 10 };

const OPERATION: Short = Columns { from: 11, to: 16 };

const VALUE: Short = Columns { from: 17, to: 22 };

const COMMON: Short = Columns { from: 23, to: 24 };

const OWN: Short = Columns { from: 25, to: 27 };

const KEY: Number = Columns { from: 28, to: 28 };

const AMOUNT: Number = Columns { from: 29, to: 42 };

const DOCUMENT: Number = Columns { from: 43, to: 52 };

const REFERENCE: Number = Columns { from: 53, to: 64 };

const SECOND_REFERENCE: Wide = Columns { from: 65, to: 80 };

// The office that a movement came from is told in modalities 2 and 3.
fn origin(offered: &[u8; 80], modality: Modality) -> Result<Option<u32>, FieldRefusal>
    ensures refusal { result_err result ≡ judged (origin_checks modality) offered.now }
    ensures origin { IfOk result (λ o. o ≡ origin_in modality offered.now) }
{
    match modality {
        Modality::First => {
            spaces(offered, ORIGIN)?;
            Ok(None)
        }
        Modality::Second | Modality::Third => Ok(Some(short_digits(offered, ORIGIN)?)),
    }
}

// The operation date lies in the period of the account.
fn operation_date(offered: &[u8; 80], period: Period) -> Result<Date, FieldRefusal>
    ensures refusal { result_err result ≡ judged (operation_checks period) offered.now }
    ensures day { IfOk result (λ d. d ≡ date_at 11 16 offered.now) }
{
    let day = date(offered, OPERATION)?;
    ask(
        Question::Agreement,
        OPERATION,
        day.not_before(period.first) && period.last.not_before(day),
    )?;
    Ok(day)
}

// The key and the amount, which keep the account in its limits.
#[tactic(auto, using(crate::proofs::Marks::marks))]
fn key_and_amount(offered: &[u8; 80], account: &OpenAccount) -> Result<Balance, FieldRefusal>
    ensures refusal { result_err result ≡ judged (amount_checks account.now) offered.now }
    ensures turn { IfOk result (λ b. b ≡ record { key = key_at 28 offered.now; amount = number_at 29 42 offered.now }) }
{
    let key = mark(offered, KEY)?;
    ask(Question::Limit, KEY, account.counts_in_limit(key))?;
    let amount = digits(offered, AMOUNT)?;
    ask(Question::Limit, AMOUNT, account.stays_in_limit(key, amount))?;
    Ok(Balance { key, amount })
}

// References are told in modality 3; the first ends in its check digit.
fn first_reference(offered: &[u8; 80], modality: Modality) -> Result<Option<u64>, FieldRefusal>
    ensures refusal { result_err result ≡ judged (reference_checks modality) offered.now }
    ensures reference { IfOk result (λ o. o ≡ reference_in modality offered.now) }
{
    match modality {
        Modality::First | Modality::Second => {
            spaces(offered, REFERENCE)?;
            spaces(offered, SECOND_REFERENCE)?;
            Ok(None)
        }
        Modality::Third => Ok(Some(reference(offered, REFERENCE)?)),
    }
}

/// Reads the numbers of a movement record of an account.
pub fn read_movement(offered: &[u8; 80], account: &OpenAccount) -> Result<Movement, FieldRefusal>
    ensures refusal { result_err result ≡ judged (movement_checks account.now) offered.now }
    ensures movement { IfOk result (λ m. m ≡ movement_in account.now.head.modality offered.now) }
{
    spaces(offered, FREE)?;
    let origin = origin(offered, account.head.modality)?;
    let operation = operation_date(offered, account.head.period)?;
    let value = date(offered, VALUE)?;
    let common = common_concept(offered, COMMON)?;
    let own = short_digits(offered, OWN)?;
    let Balance { key, amount } = key_and_amount(offered, account)?;
    let document = digits(offered, DOCUMENT)?;
    let reference = first_reference(offered, account.head.modality)?;
    Ok(Movement {
        origin,
        operation,
        value,
        common,
        own,
        key,
        amount,
        document,
        reference,
    })
}
