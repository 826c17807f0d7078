ghost use Rattle.std.specs.Prelude.{◌≡◌, IfOk};
ghost use Rattle.composing.specs.Layouts.{movement_layout};
ghost use Rattle.composing.specs.Parts.{composed};
ghost use Rattle.composing.specs.Records.{MovementRecord};

use crate::composer::Composer;
use crate::refusals::Unfit;
use values::Movement;

/// Composes a movement record.
#[tactic(auto, using(crate::proofs::Building::chain), unfolding(crate::specs::Parts::composed, crate::specs::Layouts::movement_layout))]
pub fn compose_movement(movement: &Movement, reference_2: &[u8; 16]) -> Result<[u8; 80], Unfit>
    ensures answer { result ≡ composed (movement_layout movement.now reference_2.now) }
    ensures tells { IfOk result (MovementRecord movement.now reference_2.now) }
{
    Composer::new()
        .number(2, 22)
        .spaces(4)
        .number_or_spaces(4, movement.origin.map(u64::from))
        .number(6, u64::from(movement.operation.digits))
        .number(6, u64::from(movement.value.digits))
        .number(2, u64::from(movement.common))
        .number(3, u64::from(movement.own))
        .number(1, u64::from(movement.key))
        .number(14, movement.amount)
        .number(10, movement.document)
        .number_or_spaces(12, movement.reference)
        .text(reference_2)
        .complete()
}
