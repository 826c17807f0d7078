// The one table of the archive, written once for every kind of row. It fills from the front, over rows that its caller
// lends; rows that are not filled stay untouched. What it holds is its filled rows, `held` in specs/Rows.antt.
#![tactic(auto)]

pub mod tables;

pub use tables::{Full, Table};
