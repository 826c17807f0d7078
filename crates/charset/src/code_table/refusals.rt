ghost use Rattle.std.specs.Prelude.{◌≡◌};
ghost use Rattle.charset.specs.Tables.{refusal_number, refusal_place};

use crate::CodeTableRefusal;

impl CodeTableRefusal {
    /// The number of this refusal.
    // A method, as `place` is: `u16::from(refusal)` would not say which of the two.
    pub fn number(&self) -> u16
        ensures { result ≡ refusal_number self.now }
    {
        match self {
            CodeTableRefusal::Length => 26,
            CodeTableRefusal::Repeat(_) => 25,
        }
    }

    /// The place, counted from 0, of the byte that equals an earlier one.
    pub fn place(&self) -> Option<usize>
        ensures { result ≡ refusal_place self.now }
    {
        match self {
            CodeTableRefusal::Length => None,
            CodeTableRefusal::Repeat(place) => Some(*place),
        }
    }
}
