ghost use Rattle.std.specs.Prelude.{◌≡◌, replicate, IfOk, vec_len};
ghost use Rattle.rows.specs.Kept.{no_rows};
ghost use Rattle.rows.specs.Tables.{rows_in};
ghost use Rattle.rows.specs.declared.accounts.TheConstants.{UNUSED_ACCOUNT};
ghost use Rattle.rows.specs.declared.movements.TheConstants.{UNUSED_MOVEMENT};
ghost use Rattle.rows.specs.declared.texts.TheConstants.{UNUSED_TEXT};

use crate::accounts::{AccountRow, UNUSED_ACCOUNT};
use crate::archive::Tables;
use crate::movements::{MovementRow, UNUSED_MOVEMENT};
use crate::texts::{TextRow, UNUSED_TEXT};
use std::alloc::{AllocError, Global};

/// Rows on the heap, which tables can be made over.
#[derive(Clone, Drop)]
pub struct RowStore {
    pub accounts: Vec<AccountRow>,
    pub movements: Vec<MovementRow>,
    pub texts: Vec<TextRow>,
}

impl RowStore {
    /// So many unused rows of each kind.
    // Three counts in a row: a struct for this one call is no plainer.
    pub fn new(
        heap: Global,
        accounts: usize,
        movements: usize,
        texts: usize,
    ) -> Result<RowStore, AllocError>
        ensures accounts { IfOk result (λ store. store.accounts.items ≡ replicate accounts UNUSED_ACCOUNT) }
        ensures movements { IfOk result (λ store. store.movements.items ≡ replicate movements UNUSED_MOVEMENT) }
        ensures texts { IfOk result (λ store. store.texts.items ≡ replicate texts UNUSED_TEXT) }
    {
        Ok(RowStore {
            accounts: vec![in heap; UNUSED_ACCOUNT; accounts]?,
            movements: vec![in heap; UNUSED_MOVEMENT; movements]?,
            texts: vec![in heap; UNUSED_TEXT; texts]?,
        })
    }

    /// Empty tables over these rows.
    // No `lent`: a part of a `Vec` has no name that a caller could know it by again, and the tables tell what they hold.
    pub fn tables(&mut self) -> Tables<'_, '_, '_>
        ensures empty { rows_in result ≡ no_rows }
        ensures accounts { result.accounts.rows.now ≡ self.old.accounts.items }
        ensures movements { result.movements.rows.now ≡ self.old.movements.items }
        ensures texts { result.texts.rows.now ≡ self.old.texts.items }
    {
        Tables::new(&mut self.accounts, &mut self.movements, &mut self.texts)
    }
}

#[cfg(test)]
mod tests {
    use super::*;
    use std::test::Fail;

    #[test]
    fn has_rows_of_each_kind(rt: HostRuntime) -> Result<(), Fail> {
        let store = RowStore::new(rt.alloc(), 2, 3, 0)?;
        assert_eq!(rt; store.accounts.as_slice(), [UNUSED_ACCOUNT; 2].as_slice());
        assert_eq!(rt; store.movements.as_slice(), [UNUSED_MOVEMENT; 3].as_slice());
        assert_eq!(rt; store.texts.len(), 0);
        Ok(())
    }
}
