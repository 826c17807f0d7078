ghost use Rattle.std.specs.Prelude.{◌≡◌, IfOk};
ghost use Rattle.std.specs.Result.{result_err};
ghost use Rattle.records.specs.Checks.{judged};
ghost use Rattle.records.specs.Rules.{file_end_checks};
ghost use Rattle.records.specs.Values.{number_at};

use crate::columns::{Columns, Number, Wide, ask, digits, same_number, spaces};
use crate::refusals::{FieldRefusal, Question};

const FILLER: Number = Columns { from: 3, to: 20 };

const RECORDS: Number = Columns { from: 21, to: 26 };

const FREE: Wide = Columns { from: 27, to: 80 };

/// What columns 3 to 20 of a file end hold.
pub const NINES: [u8; 18] = *b"999999999999999999";

/// Reads the file end that comes after so many records.
pub fn read_file_end(offered: &[u8; 80], before: u32) -> Result<u32, FieldRefusal>
    ensures refusal { result_err result ≡ judged (file_end_checks before) offered.now }
    ensures number { IfOk result (λ n. (n ≡ before) × (n ≡ number_at 21 26 offered.now)) }
{
    digits(offered, FILLER)?;
    ask(Question::Value, FILLER, &offered[2..20] == NINES.as_slice())?;
    same_number(offered, RECORDS, u64::from(before))?;
    spaces(offered, FREE)?;
    Ok(before)
}
