use crate::wording::Many;
use rows::Statement;
use std::fmt;

/// How many rows there are of each kind.
#[derive(Clone, Copy, PartialEq, Eq)]
pub struct Size {
    pub accounts: usize,
    pub movements: usize,
    pub texts: usize,
}

impl From<&Statement<'_>> for Size {
    fn from(statement: &Statement<'_>) -> Size {
        Size {
            accounts: statement.accounts.len(),
            movements: statement.movements.len(),
            texts: statement.texts.len(),
        }
    }
}

impl fmt::Display for Size {
    fn fmt<W: fmt::Write>(&self, f: &mut fmt::Formatter<W>) -> fmt::Result {
        let accounts = Many(self.accounts as u64, "account");
        let movements = Many(self.movements as u64, "movement");
        let texts = Many(self.texts as u64, "text");
        write!(f, "{accounts}, {movements}, {texts}")
    }
}
