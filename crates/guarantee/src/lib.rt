// The main promises: what every reading, every read and every write of whole files keeps. The correct file is defined in
// specs/Files.antt, over a whole list of records; what is promised of it in specs/Runs.antt and specs/Promises.antt, and
// all of it on one call in specs/Whole.antt.
#![tactic(auto)]

pub mod audits;
pub mod examples;
pub mod holdings;
pub mod runs;

pub use audits::{Audited, audit};
pub use examples::worked_examples;
pub use holdings::{read, write};
pub use runs::{Call, run};
