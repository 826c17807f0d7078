ghost use Rattle.std.specs.Prelude.{◌≡◌};
ghost use Rattle.charset.specs.Tables.{decoded, encoded, ReadsBack, WritesBack};

use crate::CodeTable;

impl CodeTable {
    /// The character that a byte reads as, if any.
    #[tactic(auto, using(crate::proofs::Tables::writes_back))]
    pub fn decode(&self, byte: u8) -> Option<u8>
        ensures value { result ≡ decoded self.now byte }
        ensures back { WritesBack self.now byte result }
    {
        self.decoding[byte as usize]
    }

    /// The byte that a character is written as; none for a byte that is no character.
    #[tactic(auto, using(crate::proofs::Tables::reads_back))]
    pub fn encode(&self, character: u8) -> Option<u8>
        ensures value { result ≡ encoded self.now character }
        ensures back { ReadsBack self.now character result }
    {
        self.encoding[character as usize]
    }
}
