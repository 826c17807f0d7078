ghost use Rattle.std.specs.Prelude.{◌≡◌, IfOk};
ghost use Rattle.composing.specs.Layouts.{account_layout};
ghost use Rattle.composing.specs.Parts.{composed};
ghost use Rattle.composing.specs.Records.{AccountRecord};

use crate::composer::Composer;
use crate::refusals::Unfit;
use values::AccountHead;

/// Composes an account record.
#[tactic(auto, using(crate::proofs::Building::chain, crate::proofs::Telling::account_told), unfolding(crate::specs::Parts::composed, crate::specs::Layouts::account_layout))]
pub fn compose_account(head: &AccountHead, name: &[u8; 26]) -> Result<[u8; 80], Unfit>
    ensures answer { result ≡ composed (account_layout head.now name.now) }
    ensures tells { IfOk result (AccountRecord head.now name.now) }
{
    Composer::new()
        .number(2, 11)
        .number(4, u64::from(head.number.entity))
        .number(4, u64::from(head.number.office))
        .number(10, head.number.number)
        .number(6, u64::from(head.period.first.digits))
        .number(6, u64::from(head.period.last.digits))
        .number(1, u64::from(head.initial.key))
        .number(14, head.initial.amount)
        .number(3, u64::from(head.currency))
        .number(1, u64::from(head.modality))
        .text(name)
        .spaces(3)
        .complete()
}
