ghost use Rattle.std.specs.Prelude.{◌≡◌};
ghost use Rattle.rows.specs.Kept.{no_rows, rows_lent};
ghost use Rattle.rows.specs.Tables.{rows_in, Holds};

use crate::accounts::AccountRow;
use crate::movements::MovementRow;
use crate::tables::Statement;
use crate::texts::TextRow;
use table::Table;

/// The three tables of the archive, over rows that the caller lends. Each has a lifetime of its own, so that tables which
/// were lent can be lent on and put back.
#[derive(Drop)]
pub struct Tables<'a, 'm, 't> {
    pub accounts: Table<'a, AccountRow>,
    pub movements: Table<'m, MovementRow>,
    pub texts: Table<'t, TextRow>,
}

impl<'a, 'm, 't> Tables<'a, 'm, 't> {
    /// Empty tables over these rows.
    pub fn new(
        accounts: &'a mut [AccountRow],
        movements: &'m mut [MovementRow],
        texts: &'t mut [TextRow],
    ) -> Tables<'a, 'm, 't>
        ensures empty { rows_in result ≡ no_rows }
        ensures accounts { result.accounts.rows.now ≡ accounts.old }
        ensures movements { result.movements.rows.now ≡ movements.old }
        ensures texts { result.texts.rows.now ≡ texts.old }
        ensures accounts_lent { result.accounts.rows.ghost_name ≡ accounts.entry.ghost_name }
        ensures movements_lent { result.movements.rows.ghost_name ≡ movements.entry.ghost_name }
        ensures texts_lent { result.texts.rows.ghost_name ≡ texts.entry.ghost_name }
    {
        Tables {
            accounts: Table::new(accounts),
            movements: Table::new(movements),
            texts: Table::new(texts),
        }
    }

    /// Forgets every row, and touches none.
    pub fn clear(&mut self)
        ensures { Holds self.old self.new no_rows }
    {
        self.accounts.clear();
        self.movements.clear();
        self.texts.clear();
    }

    /// The filled rows.
    pub fn statement(&self) -> Statement<'_>
        ensures { rows_lent result ≡ rows_in self.now }
    {
        Statement {
            accounts: self.accounts.rows(),
            movements: self.movements.rows(),
            texts: self.texts.rows(),
        }
    }
}

#[cfg(test)]
mod tests {
    use super::*;
    use crate::accounts::UNUSED_ACCOUNT;
    use crate::movements::UNUSED_MOVEMENT;
    use crate::texts::UNUSED_TEXT;
    use std::mem::replace;
    use std::test::Fail;

    // Three tables that were lent, each over rows of another lifetime, are lent on as one and put back.
    fn lend_on<'a, 'm, 't>(
        accounts: &mut Table<'a, AccountRow>,
        movements: &mut Table<'m, MovementRow>,
        texts: &mut Table<'t, TextRow>,
    ) {
        let mut tables = Tables {
            accounts: replace(accounts, Table::new(&mut [])),
            movements: replace(movements, Table::new(&mut [])),
            texts: replace(texts, Table::new(&mut [])),
        };
        tables.clear();
        *accounts = tables.accounts;
        *movements = tables.movements;
        *texts = tables.texts;
    }

    #[test]
    fn are_made_of_tables_that_were_lent(rt: HostRuntime) -> Result<(), Fail> {
        let mut account_rows = [UNUSED_ACCOUNT; 1];
        let mut movement_rows = [UNUSED_MOVEMENT; 2];
        let mut text_rows = [UNUSED_TEXT; 3];
        let mut accounts = Table::new(&mut account_rows);
        let mut movements = Table::new(&mut movement_rows);
        let mut texts = Table::new(&mut text_rows);
        assert!(rt; texts.push(UNUSED_TEXT).is_ok());
        assert_eq!(rt; texts.len(), 1);
        lend_on(&mut accounts, &mut movements, &mut texts);
        assert_eq!(rt; texts.len(), 0);
        assert!(rt; texts.push(UNUSED_TEXT).is_ok());
        assert_eq!(rt; texts.rows(), [UNUSED_TEXT; 1].as_slice());
        Ok(())
    }
}
