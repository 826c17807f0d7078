ghost use Rattle.std.specs.Prelude.{◌≡◌, slice_index};
ghost use Rattle.std.specs.Result.{result_ok};
ghost use Rattle.reading.specs.Kinds.{kind_of, last_number};

/// The six kinds of record.
#[derive(Clone, Copy, PartialEq, Eq, Debug)]
pub enum Kind {
    Account,
    Movement,
    Text,
    Equivalent,
    AccountEnd,
    FileEnd,
}

/// A code that is none of the six.
#[derive(Clone, Copy, PartialEq, Eq, Debug)]
pub struct UnknownCode;

/// The kind that a code of two characters names.
impl TryFrom<[u8; 2]> for Kind {
    type Error = UnknownCode;

    ghost try_from_gives = { λ code result. result_ok result ≡ kind_of (slice_index code 0) (slice_index code 1) };

    fn try_from(code: [u8; 2]) -> Result<Kind, UnknownCode> {
        match code {
            [b'1', b'1'] => Ok(Kind::Account),
            [b'2', b'2'] => Ok(Kind::Movement),
            [b'2', b'3'] => Ok(Kind::Text),
            [b'2', b'4'] => Ok(Kind::Equivalent),
            [b'3', b'3'] => Ok(Kind::AccountEnd),
            [b'8', b'8'] => Ok(Kind::FileEnd),
            _ => Err(UnknownCode),
        }
    }
}

impl Kind {
    /// The largest record number of a kind: there is always room for an account end and a file end.
    pub fn last_number(self) -> u32
        ensures { result ≡ last_number self }
    {
        match self {
            Kind::FileEnd => 1_000_000,
            Kind::AccountEnd => 999_999,
            Kind::Account | Kind::Movement | Kind::Text | Kind::Equivalent => 999_998,
        }
    }
}
