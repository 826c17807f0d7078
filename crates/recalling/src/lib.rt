// Recalling statements: the records of a statement are composed from the rows of the tables, checked, and written to
// an output. Which records these are is said in specs/Statements.antt.
#![tactic(auto)]

pub mod account_ends;
pub(crate) mod attachments;
pub mod checks;
pub(crate) mod compositions;
pub(crate) mod counts;
pub(crate) mod fronts;
pub mod refusals;
pub mod writing;

pub use account_ends::turned_over;
pub use checks::check_tables;
pub use refusals::{TableRefusal, WriteRefusal};
pub use writing::write;
