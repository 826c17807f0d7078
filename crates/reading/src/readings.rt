ghost use Rattle.std.specs.Prelude.{◌≤◌};
ghost use Rattle.reading.specs.Limits.{texts_of};

use crate::phases::Phase;
use values::OpenAccount;

mod offering;

/// A reading of one file: how far it has come, how many records it has taken, and the account that is open.
#[derive(Clone, Copy)]
pub struct Reading {
    phase: Phase,
    taken: u32,
    account: OpenAccount,
    ghost counted: { taken ≤ 1000000 },
    ghost few: { texts_of phase ≤ 5 },
    ghost debits: { account.debits.count ≤ 99999 },
    ghost debited: { account.debits.total ≤ 99999999999999 },
    ghost credits: { account.credits.count ≤ 99999 },
    ghost credited: { account.credits.total ≤ 99999999999999 },
}

impl Reading {
    ghost use Rattle.std.specs.Prelude.{◌≡◌, ◌≤◌};
    ghost use Rattle.reading.specs.Progress.{progress};

    /// How many records it has taken.
    pub fn taken(&self) -> u32
        ensures value { result ≡ (progress self.now).taken }
        ensures bound { result ≤ 1000000 }
    {
        self.taken
    }
}
