ghost use Rattle.std.specs.Prelude.{◌≡◌, IfOk};
ghost use Rattle.std.specs.Result.{result_err};
ghost use Rattle.records.specs.Checks.{judged};
ghost use Rattle.records.specs.Rules.{text_checks};
ghost use Rattle.records.specs.Values.{number_at};

use crate::columns::{Columns, Short, ask, short_digits};
use crate::refusals::{FieldRefusal, Question};

const SEQUENCE: Short = Columns { from: 3, to: 4 };

/// Reads the sequence of a text record that comes after so many other texts of its movement.
pub fn read_text(offered: &[u8; 80], texts: u8) -> Result<u32, FieldRefusal>
    ensures refusal { result_err result ≡ judged (text_checks texts) offered.now }
    ensures sequence { IfOk result (λ n. n ≡ number_at 3 4 offered.now) }
{
    let sequence = short_digits(offered, SEQUENCE)?;
    ask(Question::Value, SEQUENCE, (1..=5).contains(&sequence))?;
    ask(
        Question::Agreement,
        SEQUENCE,
        sequence == u32::from(texts) + 1,
    )?;
    Ok(sequence)
}
