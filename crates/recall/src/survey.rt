use media::{Carrier, Fault};
use reading::{Entry, Reading, Refusal};
use std::fmt;

/// What stopped a survey.
#[derive(Clone, Copy)]
pub enum Stop {
    Refused(Refusal),
    Broken(Fault),
}

impl From<Refusal> for Stop {
    fn from(refusal: Refusal) -> Stop {
        Stop::Refused(refusal)
    }
}

impl From<Fault> for Stop {
    fn from(fault: Fault) -> Stop {
        Stop::Broken(fault)
    }
}

/// How many records of each kind a reading took.
#[derive(Clone, Copy, Default)]
pub struct Kinds {
    accounts: u32,
    movements: u32,
    texts: u32,
    equivalents: u32,
    ends: u32,
}

impl Kinds {
    fn count(&mut self, entry: &Entry) {
        let kind = match entry {
            Entry::Account(_, _) => &mut self.accounts,
            Entry::Movement(_, _) => &mut self.movements,
            Entry::Text(_, _, _) => &mut self.texts,
            Entry::Equivalent(_) => &mut self.equivalents,
            Entry::AccountEnd(_) | Entry::FileEnd(_) => &mut self.ends,
        };
        *kind = kind.saturating_add(1);
    }
}

impl fmt::Display for Kinds {
    fn fmt<W: fmt::Write>(&self, f: &mut fmt::Formatter<W>) -> fmt::Result {
        write!(
            f,
            "{} accounts, {} movements, {} texts, {} equivalents, {} ends",
            self.accounts, self.movements, self.texts, self.equivalents, self.ends
        )
    }
}

/// Offers each record of a carrier to a new reading, until one is refused or none is left, and counts those it took.
pub fn survey<C: Carrier>(carrier: &mut C, kinds: &mut Kinds) -> Result<(), Stop> {
    let mut reading = Reading::new();
    let mut characters = [b' '; 80];
    while carrier.draw(&mut characters)? {
        kinds.count(&reading.offer(&characters)?);
    }
    Ok(reading.close()?)
}
