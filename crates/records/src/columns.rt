ghost use Rattle.std.specs.Prelude.{◌≡◌, ◌+◌, ◌-◌, ◌^◌, ◌<◌, ◌≤◌, IfOk, if◌then◌else◌, Some, None, OnOk};
ghost use Rattle.std.specs.Result.{result_err};
ghost use Rattle.records.specs.Checks.{judged, digits as digits_of, spaces as spaces_of, date as date_of, currency as currency_of, common_concept as concept_of, reference as reference_of};
ghost use Rattle.records.specs.Marks.{IsMark};
ghost use Rattle.records.specs.Rules.{same};
ghost use Rattle.records.specs.Values.{number_at, date_at};

use crate::refusals::{FieldRefusal, Question};
use fields::{Date, is_blank, is_common_concept, is_currency, is_reference, read_number};

/// The columns of a field of a record, counted from 1: at most `MOST` of them.
#[derive(Clone, Copy)]
pub(crate) struct Columns<const MOST: usize> {
    pub(crate) from: usize,
    pub(crate) to: usize,
    ghost counted: { 1 ≤ from },
    ghost ordered: { from ≤ to },
    ghost inside: { to ≤ 80 },
    ghost narrow: { to < from + MOST },
}

/// A field that no number is read from.
pub(crate) type Wide = Columns<80>;

/// A field whose number fits in 64 bits.
pub(crate) type Number = Columns<19>;

/// A field whose number fits in 32 bits.
pub(crate) type Short = Columns<9>;

impl From<Short> for Number {
    ghost from_gives = { λ short number. (number.from ≡ short.from) × (number.to ≡ short.to) };

    fn from(short: Short) -> Number {
        Columns {
            from: short.from,
            to: short.to,
        }
    }
}

// The number of an account stands in the same columns of its first record and of its end.
pub(crate) const ENTITY: Short = Columns { from: 3, to: 6 };

pub(crate) const OFFICE: Short = Columns { from: 7, to: 10 };

pub(crate) const NUMBER: Number = Columns { from: 11, to: 20 };

// The refusal of a field that fails a question.
fn refused<const MOST: usize>(question: Question, field: Columns<MOST>) -> FieldRefusal
    ensures { result ≡ record { question = question; column = field.entry.from } }
{
    FieldRefusal {
        question,
        column: field.from as u8,
    }
}

// A question at a field: it is refused there unless the answer is yes.
pub(crate) fn ask<const MOST: usize>(
    question: Question,
    field: Columns<MOST>,
    holds: bool,
) -> Result<(), FieldRefusal>
    ensures { result_err result ≡ (if holds then None else Some (record { question = question; column = field.entry.from })) }
{
    if holds {
        Ok(())
    } else {
        Err(refused(question, field))
    }
}

// A number, in digits only. Record and field stay two arguments: a struct of both would be made anew at each call.
pub(crate) fn digits(offered: &[u8; 80], field: Number) -> Result<u64, FieldRefusal>
    ensures refusal { result_err result ≡ judged (digits_of field.from field.to) offered.now }
    ensures number { IfOk result (λ n. n ≡ number_at field.from field.to offered.now) }
    ensures bound { IfOk result (λ n. n < 10 ^ (field.to - (field.from - 1))) }
{
    read_number(&offered[field.from - 1..field.to]).ok_or(refused(Question::Form, field))
}

// A number of at most nine digits.
pub(crate) fn short_digits(offered: &[u8; 80], field: Short) -> Result<u32, FieldRefusal>
    ensures refusal { result_err result ≡ judged (digits_of field.from field.to) offered.now }
    ensures number { IfOk result (λ n. n ≡ number_at field.from field.to offered.now) }
{
    let number = digits(offered, field.into())?;
    Ok(number as u32)
}

// Spaces only.
#[tactic(auto, using(crate::proofs::Judging::chain), unfolding(crate::specs::Checks::spaces))]
pub(crate) fn spaces<const MOST: usize>(
    offered: &[u8; 80],
    field: Columns<MOST>,
) -> Result<(), FieldRefusal>
    ensures { result_err result ≡ judged (spaces_of field.entry.from field.entry.to) offered.now }
{
    ask(
        Question::Form,
        field,
        is_blank(&offered[field.from - 1..field.to]),
    )
}

// A date, which is a real day.
// These four ask their own tests: a function that takes one needs a clause over any test, and each caller an answer.
#[tactic(auto, using(crate::proofs::Judging::chain), unfolding(crate::specs::Checks::date, crate::specs::Checks::is_date))]
pub(crate) fn date(offered: &[u8; 80], field: Short) -> Result<Date, FieldRefusal>
    ensures refusal { result_err result ≡ judged (date_of field.from field.to) offered.now }
    ensures day { IfOk result (λ d. d ≡ date_at field.from field.to offered.now) }
{
    let date = Date {
        digits: short_digits(offered, field)?,
    };
    ask(Question::Value, field, date.is_real_day())?;
    Ok(date)
}

// A code of the currencies.
#[tactic(auto, using(crate::proofs::Judging::chain), unfolding(crate::specs::Checks::currency, crate::specs::Checks::is_currency))]
pub(crate) fn currency(offered: &[u8; 80], field: Short) -> Result<u32, FieldRefusal>
    ensures refusal { result_err result ≡ judged (currency_of field.from field.to) offered.now }
    ensures code { IfOk result (λ n. n ≡ number_at field.from field.to offered.now) }
{
    let code = short_digits(offered, field)?;
    ask(Question::Value, field, is_currency(u64::from(code)))?;
    Ok(code)
}

// A code of the common concepts.
#[tactic(auto, using(crate::proofs::Judging::chain), unfolding(crate::specs::Checks::common_concept, crate::specs::Checks::is_common_concept))]
pub(crate) fn common_concept(offered: &[u8; 80], field: Short) -> Result<u32, FieldRefusal>
    ensures refusal { result_err result ≡ judged (concept_of field.from field.to) offered.now }
    ensures code { IfOk result (λ n. n ≡ number_at field.from field.to offered.now) }
{
    let code = short_digits(offered, field)?;
    ask(Question::Value, field, is_common_concept(u64::from(code)))?;
    Ok(code)
}

// A reference that ends in its check digit.
#[tactic(auto, using(crate::proofs::Judging::chain), unfolding(crate::specs::Checks::reference, crate::specs::Checks::has_check_digit))]
pub(crate) fn reference(offered: &[u8; 80], field: Number) -> Result<u64, FieldRefusal>
    ensures refusal { result_err result ≡ judged (reference_of field.from field.to) offered.now }
    ensures number { IfOk result (λ n. n ≡ number_at field.from field.to offered.now) }
{
    let number = digits(offered, field)?;
    ask(Question::Value, field, is_reference(number))?;
    Ok(number)
}

// What one digit stands for.
pub(crate) fn mark<T: TryFrom<u64>>(offered: &[u8; 80], field: Number) -> Result<T, FieldRefusal>
where
    T::Error: Drop,
    ensures { IsMark T.try_from_gives field.from field.to offered.now result }
{
    let digit = digits(offered, field)?;
    T::try_from(digit).map_err(|_| refused(Question::Value, field))
}

// A number that must be the one expected.
pub(crate) fn same_number(
    offered: &[u8; 80],
    field: Number,
    expected: u64,
) -> Result<(), FieldRefusal>
    ensures refusal { result_err result ≡ judged (same field.from field.to expected) offered.now }
    ensures number { OnOk result (expected ≡ number_at field.from field.to offered.now) }
{
    let number = digits(offered, field)?;
    ask(Question::Agreement, field, number == expected)
}
