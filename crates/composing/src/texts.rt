ghost use Rattle.std.specs.Prelude.{◌≡◌, IfOk};
ghost use Rattle.composing.specs.Layouts.{text_layout};
ghost use Rattle.composing.specs.Parts.{composed};
ghost use Rattle.composing.specs.Records.{TextRecord};

use crate::composer::Composer;
use crate::refusals::Unfit;

/// Composes a text record.
#[tactic(auto, using(crate::proofs::Building::chain, crate::proofs::Telling::text_told), unfolding(crate::specs::Parts::composed, crate::specs::Layouts::text_layout))]
pub fn compose_text(sequence: u32, first: &[u8; 38], second: &[u8; 38]) -> Result<[u8; 80], Unfit>
    ensures answer { result ≡ composed (text_layout sequence first.now second.now) }
    ensures tells { IfOk result (TextRecord sequence first.now second.now) }
{
    Composer::new()
        .number(2, 23)
        .number(2, u64::from(sequence))
        .text(first)
        .text(second)
        .complete()
}
