ghost use Rattle.std.specs.Prelude.{◌≡◌};
ghost use Rattle.rows.specs.Layers.{table_number};

use crate::accounts::AccountRow;
use crate::movements::MovementRow;
use crate::texts::TextRow;

/// The filled rows of the three tables of the archive. Each account has the next movements, and each movement the next
/// texts, as many as its row says.
#[derive(Clone, Copy, PartialEq, Eq, Debug)]
pub struct Statement<'a> {
    pub accounts: &'a [AccountRow],
    pub movements: &'a [MovementRow],
    pub texts: &'a [TextRow],
}

/// One of the three tables.
#[derive(Clone, Copy, PartialEq, Eq, Debug)]
pub enum TableKind {
    Accounts = 1,
    Movements = 2,
    Texts = 3,
}

impl TableKind {
    /// The place that a refusal about this table tells.
    // A method: `u8::from(table)` would not say which number.
    pub fn number(self) -> u8
        ensures { result ≡ table_number self }
    {
        self as u8
    }
}
