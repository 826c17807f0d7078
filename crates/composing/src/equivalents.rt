ghost use Rattle.std.specs.Prelude.{◌≡◌, IfOk};
ghost use Rattle.composing.specs.Layouts.{equivalent_layout};
ghost use Rattle.composing.specs.Parts.{composed};
ghost use Rattle.composing.specs.Records.{EquivalentRecord};

use crate::composer::Composer;
use crate::refusals::Unfit;
use values::Equivalent;

/// Composes an equivalent record.
#[tactic(auto, using(crate::proofs::Building::chain, crate::proofs::Telling::equivalent_told), unfolding(crate::specs::Parts::composed, crate::specs::Layouts::equivalent_layout))]
pub fn compose_equivalent(equivalent: &Equivalent) -> Result<[u8; 80], Unfit>
    ensures answer { result ≡ composed (equivalent_layout equivalent.now) }
    ensures tells { IfOk result (EquivalentRecord equivalent.now) }
{
    Composer::new()
        .number(2, 24)
        .number(2, 1)
        .number(3, u64::from(equivalent.currency))
        .number(14, equivalent.amount)
        .spaces(59)
        .complete()
}
