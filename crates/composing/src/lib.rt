// Composing the six records of a statement from their values: each number in the digits of its field, each text as
// it is. The fields of each record stand in specs/Layouts.antt, from the left.
#![tactic(auto)]

pub mod account_ends;
pub mod accounts;
pub(crate) mod composer;
pub mod equivalents;
pub mod file_ends;
pub mod movements;
pub mod refusals;
pub mod texts;

pub use account_ends::{AccountClose, compose_account_end};
pub use accounts::compose_account;
pub use equivalents::compose_equivalent;
pub use file_ends::compose_file_end;
pub use movements::compose_movement;
pub use refusals::Unfit;
pub use texts::compose_text;
