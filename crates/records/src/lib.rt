// The six records of a statement, each read from its columns in its context.
// The rules of each record stand in specs/Rules.antt, field by field from the left; the answer is the first that fails.
#![tactic(auto, using(crate::proofs::Judging::chain))]

pub mod account_ends;
pub mod accounts;
mod columns;
pub mod equivalents;
pub mod file_ends;
pub mod movements;
pub mod refusals;
pub mod texts;

pub use refusals::{FieldRefusal, Question};
