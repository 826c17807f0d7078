// Archiving a holding: its records are drawn from a carrier, offered to a reading, and entered in the tables of
// accounts, movements and texts. What a read answers and leaves is said in specs/Reads.antt.
#![tactic(auto)]

pub mod entering;
pub mod reads;
pub mod refusals;

pub use reads::{Counts, read};
pub use refusals::ReadRefusal;
