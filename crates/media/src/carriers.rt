ghost use Rattle.std.specs.Prelude.{◌≡◌, ℕ, ◌≤◌, List};
ghost use Rattle.media.specs.Endings.{Ending};
ghost use Rattle.media.specs.Meaning.{Draws, Stays};

use crate::framing::RECORD_LENGTH;

/// What is wrong with a carrier, and where.
#[derive(Clone, Copy, PartialEq, Eq, Debug)]
pub struct Fault {
    /// A number and no enum: a carrier of another kind than a volume has faults of its own.
    pub number: u16,
    /// The byte place in its volume, counted from 0.
    pub place: usize,
    /// The volume, counted from 1.
    pub volume: u16,
}

/// How a carrier ends: clean, or in a fault.
pub type Ending = Result<(), Fault>;

/// Something that gives the records of a holding, one after the other.
pub trait Carrier {
    /// The records still to come.
    ghost records: { Self → List (List ℕ) };

    /// How it ends after them. It never changes.
    ghost ending: { Self → Ending };

    /// The number of its volumes, 1 to 65,535. It never changes.
    ghost volumes: { Self → ℕ };

    /// The number of its volumes.
    fn volumes(&self) -> u16
        ensures value { result ≡ volumes self.now }
        ensures bounds { (1 ≤ volumes self.now) × (volumes self.now ≤ 65535) };

    /// Copies the first record left, 80 characters, into the caller's bytes, removes it and answers true. With none left it
    /// answers false at a clean end, and else its fault, and neither those bytes nor the carrier change.
    // `ending` and `volumes` stand at whatever draws, since no invariant can speak of two moments.
    // A bool and no Option of a record: the rules have the record copied into the caller's bytes.
    fn draw(&mut self, into: &mut [u8; RECORD_LENGTH]) -> Result<bool, Fault>
        ensures drawn { Draws (records self.old) (ending self.old) into.old (records self.new) into.new result }
        ensures kept { Stays self.old self.new result }
        ensures ending { ending self.new ≡ ending self.old }
        ensures volumes { volumes self.new ≡ volumes self.old };
}
