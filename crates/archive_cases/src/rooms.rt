use crate::sample::{file, volume};
use archiving::read;
use media::Framing;
use rows::accounts::UNUSED_ACCOUNT;
use rows::movements::UNUSED_MOVEMENT;
use rows::texts::UNUSED_TEXT;
use rows::{RowStore, Statement, Tables};
use std::alloc::{AllocError, Global};

/// How many accounts, movements and texts there are.
pub type Size = [usize; 3];

/// How many the sample has.
pub const SAMPLE: Size = [2, 3, 2];

/// The rows that are lent to tables.
#[derive(Clone, Drop)]
pub struct Room {
    pub rows: RowStore,
}

impl Room {
    /// So many rows, unused.
    pub fn new(heap: Global, size: Size) -> Result<Room, AllocError> {
        let [accounts, movements, texts] = size;
        Ok(Room {
            rows: RowStore::new(heap, accounts, movements, texts)?,
        })
    }

    /// The rows of the sample.
    pub fn sample(heap: Global) -> Result<Room, AllocError> {
        let mut room = Room::new(heap, SAMPLE)?;
        let bytes = file(heap, Framing::Blocks)?;
        let _ = read(&mut volume(&bytes, Framing::Blocks), &mut room.tables());
        Ok(room)
    }

    /// Lends fewer rows, or some unused ones behind these.
    pub fn resize(&mut self, size: Size) -> Result<(), AllocError> {
        let [accounts, movements, texts] = size;
        self.rows.accounts.resize(accounts, UNUSED_ACCOUNT)?;
        self.rows.movements.resize(movements, UNUSED_MOVEMENT)?;
        self.rows.texts.resize(texts, UNUSED_TEXT)?;
        Ok(())
    }

    /// Empty tables over these rows.
    pub fn tables(&mut self) -> Tables<'_, '_, '_> {
        self.rows.tables()
    }

    /// These rows as the filled rows of tables.
    pub fn statement(&self) -> Statement<'_> {
        Statement {
            accounts: &self.rows.accounts,
            movements: &self.rows.movements,
            texts: &self.rows.texts,
        }
    }
}
