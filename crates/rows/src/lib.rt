// The rows that a statement is kept in, the three tables of an archive, and what every refusal about tables tells.
// A row may hold what no file has: its numbers may be too wide for their fields, its texts no characters.
#![tactic(auto)]

pub mod accounts;
pub mod archive;
pub mod movements;
pub mod notices;
pub mod stores;
pub mod tables;
pub mod texts;

pub use accounts::AccountRow;
pub use archive::Tables;
pub use movements::MovementRow;
pub use notices::{Layer, Notice};
pub use stores::RowStore;
pub use tables::{Statement, TableKind};
pub use texts::TextRow;
