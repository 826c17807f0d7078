ghost use Rattle.std.specs.Prelude.{◌≡◌, IfOk};
ghost use Rattle.composing.specs.Layouts.{file_end_layout};
ghost use Rattle.composing.specs.Parts.{composed};
ghost use Rattle.composing.specs.Records.{FileEndRecord};

use crate::composer::Composer;
use crate::refusals::Unfit;
use records::file_ends::NINES;

/// Composes the file end that comes after so many records.
#[tactic(auto, using(crate::proofs::Building::chain, crate::proofs::Telling::file_end_told), unfolding(crate::specs::Parts::composed, crate::specs::Layouts::file_end_layout))]
pub fn compose_file_end(before: u32) -> Result<[u8; 80], Unfit>
    ensures answer { result ≡ composed (file_end_layout before) }
    ensures tells { IfOk result (FileEndRecord before) }
{
    Composer::new()
        .number(2, 88)
        .text(&NINES)
        .number(6, u64::from(before))
        .spaces(54)
        .complete()
}
