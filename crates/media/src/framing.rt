ghost use Rattle.std.specs.Prelude.{◌≡◌};
ghost use Rattle.std.specs.Str.{bytes_eq};
ghost use Rattle.media.specs.Frames.{line_end, stride};

/// How many characters a record has.
pub const RECORD_LENGTH: usize = 80;

/// How records follow one another in the bytes of a volume.
#[derive(Clone, Copy, PartialEq, Eq, Debug)]
pub enum Framing {
    /// Each record is a line, ended by the bytes 13 and 10.
    Lines,
    /// Record after record, without line ends.
    Blocks,
}

impl Framing {
    /// The bytes that end a record.
    pub fn line_end(self) -> &'static [u8]
        ensures { result.now ≡ line_end self }
    {
        match self {
            Framing::Lines => b"\r\n",
            Framing::Blocks => b"",
        }
    }

    /// Whether bytes end a record.
    pub fn is_line_end(self, bytes: &[u8]) -> bool
        ensures { result ≡ bytes_eq bytes.now (line_end self) }
    {
        bytes == self.line_end()
    }

    /// How many bytes a record takes with its end.
    pub fn stride(self) -> usize
        ensures { result ≡ stride self }
    {
        RECORD_LENGTH + self.line_end().len()
    }
}
