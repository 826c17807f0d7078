// The reading of a statement: records are offered one after the other, and each is taken or refused.
// What a reading answers is defined in specs/Offers.antt, question by question.
#![tactic(auto)]

pub mod characters;
pub mod entries;
pub mod kinds;
pub mod phases;
pub mod readings;
pub mod refusals;

pub use entries::Entry;
pub use kinds::{Kind, UnknownCode};
pub use phases::Phase;
pub use readings::Reading;
pub use refusals::{Cause, Refusal, Told};
