ghost use Rattle.std.specs.Prelude.{◌≡◌};
ghost use Rattle.reading.specs.Limits.{texts_of};
ghost use Rattle.reading.specs.Phases.{next};

use crate::kinds::Kind;

/// How far a reading has come.
#[derive(Clone, Copy, PartialEq, Eq, Debug)]
pub enum Phase {
    /// Nothing is taken.
    Start,
    /// An account has ended.
    Between,
    /// An account has begun, and no movement has come.
    Opened,
    /// A movement has come, and so many of its texts.
    Texts(u8),
    /// A movement's equivalent has come.
    Converted,
    /// The file has ended.
    Ended,
}

/// How many texts a movement has at most.
pub const MOST_TEXTS: u8 = 5;

impl Phase {
    /// How many texts of the last movement have come.
    pub fn texts(self) -> u8
        ensures { result ≡ texts_of self }
    {
        match self {
            Phase::Texts(texts) => texts,
            _ => 0,
        }
    }

    /// The phase after a record of a kind, if it may come here.
    pub fn next(self, kind: Kind) -> Option<Phase>
        ensures { result ≡ next self kind }
    {
        match (self, kind) {
            (Phase::Start, Kind::Account) => Some(Phase::Opened),
            (Phase::Between, Kind::Account) => Some(Phase::Opened),
            (Phase::Between, Kind::FileEnd) => Some(Phase::Ended),
            (Phase::Opened | Phase::Texts(_) | Phase::Converted, Kind::Movement) => Some(
                Phase::Texts(0),
            ),
            (Phase::Opened | Phase::Texts(_) | Phase::Converted, Kind::AccountEnd) => Some(
                Phase::Between,
            ),
            (Phase::Texts(texts), Kind::Text) if texts < MOST_TEXTS => Some(Phase::Texts(
                texts + 1,
            )),
            (Phase::Texts(_), Kind::Equivalent) => Some(Phase::Converted),
            _ => None,
        }
    }
}
