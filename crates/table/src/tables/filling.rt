ghost use Rattle.std.specs.Prelude.{◌≡◌};
ghost use Rattle.table.specs.Rows.{held, Pushed, WasSet, ReadAt, LastOf};

use crate::tables::{Full, Table};

// `lent` stands at each method that changes a table, since no invariant can speak of two moments.
impl<'a, T: Copy> Table<'a, T> {
    /// An empty table over these rows.
    pub fn new(rows: &'a mut [T]) -> Table<'a, T>
        ensures rows { result.rows.now ≡ rows.old }
        ensures none { result.filled ≡ 0 }
        ensures lent { result.rows.ghost_name ≡ rows.entry.ghost_name }
    {
        Table { rows, filled: 0 }
    }

    /// Forgets every row, and touches none.
    pub fn clear(&mut self)
        ensures rows { self.new.rows.now ≡ self.old.rows.now }
        ensures none { self.new.filled ≡ 0 }
        ensures lent { self.new.rows.ghost_name ≡ self.old.rows.ghost_name }
    {
        self.filled = 0;
    }

    /// Appends a row, if one is free.
    pub fn push(&mut self, row: T) -> Result<(), Full>
        ensures pushed { Pushed self.old.rows.now self.old.filled row self.new.rows.now self.new.filled result }
        ensures lent { self.new.rows.ghost_name ≡ self.old.rows.ghost_name }
    {
        if self.filled == self.rows.len() {
            return Err(Full);
        }
        self.rows[self.filled] = row;
        self.filled += 1;
        Ok(())
    }

    /// Puts another row in the place of a filled one, and tells whether there is one.
    // A bool: an error would tell no more than false, and is no plainer.
    pub fn set(&mut self, index: usize, row: T) -> bool
        ensures set { WasSet self.old.rows.now self.old.filled index row self.new.rows.now result }
        ensures filled { self.new.filled ≡ self.old.filled }
        ensures lent { self.new.rows.ghost_name ≡ self.old.rows.ghost_name }
    {
        if index >= self.filled {
            return false;
        }
        self.rows[index] = row;
        true
    }

    /// The row at an index, if it is filled.
    pub fn get(&self, index: usize) -> Option<T>
        ensures { ReadAt self.now.rows.now self.now.filled index result }
    {
        self.rows().get(index).copied()
    }

    /// The last filled row and its index, if any is filled.
    pub fn last(&self) -> Option<(usize, T)>
        ensures { LastOf self.now.rows.now self.now.filled result }
    {
        let index = self.filled.checked_sub(1)?;
        Some((index, self.get(index)?))
    }

    /// The filled rows.
    pub fn rows(&self) -> &[T]
        ensures { result.now ≡ held self.now.rows.now self.now.filled }
    {
        &self.rows[..self.filled]
    }

    /// How many rows are filled.
    pub fn len(&self) -> usize
        ensures { result ≡ self.now.filled }
    {
        self.rows().len()
    }
}
