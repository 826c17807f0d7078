// What the program `check` does: it reads an input into tables and tells what came of it in one line. What it tells is
// defined in specs/Checks.antt, the bytes of the line in specs/Lines.antt.
#![tactic(auto)]

pub mod checks;
pub mod lines;

pub use checks::check;
pub use lines::Report;
