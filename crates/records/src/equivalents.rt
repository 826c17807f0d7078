ghost use Rattle.std.specs.Prelude.{◌≡◌, IfOk};
ghost use Rattle.std.specs.Result.{result_err};
ghost use Rattle.records.specs.Checks.{judged};
ghost use Rattle.records.specs.Rules.{equivalent_checks};
ghost use Rattle.records.specs.Values.{equivalent_in};

use crate::columns::{Columns, Number, Short, Wide, ask, currency, digits, spaces};
use crate::refusals::{FieldRefusal, Question};
use values::{AccountHead, Equivalent};

const SEQUENCE: Number = Columns { from: 3, to: 4 };

const CURRENCY: Short = Columns { from: 5, to: 7 };

const AMOUNT: Number = Columns { from: 8, to: 21 };

const FREE: Wide = Columns { from: 22, to: 80 };

/// Reads an equivalent record of an account.
pub fn read_equivalent(offered: &[u8; 80], head: &AccountHead) -> Result<Equivalent, FieldRefusal>
    ensures refusal { result_err result ≡ judged (equivalent_checks head.now) offered.now }
    ensures equivalent { IfOk result (λ e. e ≡ equivalent_in offered.now) }
{
    ask(Question::Value, SEQUENCE, digits(offered, SEQUENCE)? == 1)?;
    let currency = currency(offered, CURRENCY)?;
    ask(Question::Agreement, CURRENCY, currency != head.currency)?;
    let amount = digits(offered, AMOUNT)?;
    spaces(offered, FREE)?;
    Ok(Equivalent { currency, amount })
}
