// The character set of statements: the 57 characters, and the code tables that carriers write them in.
#![tactic(auto)]

pub mod characters;
pub mod code_table;

pub use characters::is_character;
pub use code_table::{CodePage, CodeTable, CodeTableRefusal};
