//! The end of a trap.
ghost use Rattle.std.specs.Prelude.{◌≡◌, ℕ, ◌<◌, false, true, OnOk, OnErr};
ghost use Rattle.phys_memory.specs.Memory.{words_of};
ghost use Rattle.intent_store.specs.Live.{IsStanding, IsUnstored, may_refuse, records_held};
ghost use Rattle.syscalls.specs.Serving.{IsDoable, plan_of};
ghost use Rattle.kernel_traps.specs.Plants.{IsInTrap, IsSound};
ghost use Rattle.kernel_traps.specs.Ending.{CanBeServed, EndsTrap, HasStep, IsEnded, MayBeLeftOfPlan};

use crate::services::carry_out;
use intent_store::Live;
use ow_base::Panicked;
use ow_plant::Plant;
use syscalls::Service;

// Carries out the service of a trap, and ends the trap.
pub(crate) fn end_trap(plant: &mut Plant, slot: u32, service: &Service) -> Result<(), Panicked>
    requires trap { (steps : ℕ) × IsInTrap plant.old steps × HasStep (plan_of service.now) steps plant.old.steps }
    requires plan { EndsTrap (records_held plant.old) slot plant.old.traps (plan_of service.now) }
    requires can { CanBeServed (records_held plant.old) slot (plan_of service.now) }
    requires doable { IsDoable (records_held plant.old) (words_of plant.old.memory) slot service.now }
    requires slot { slot < 16 }
    ensures ok { OnOk result (IsEnded plant.old slot (plan_of service.now) plant.new) }
    ensures sound { OnOk result (IsSound plant.new) }
    ensures err { OnErr result (MayBeLeftOfPlan plant.old slot (plan_of service.now) plant.new) }
    ensures unstored { OnErr result (IsUnstored plant.old plant.new) }
    ensures stands { OnErr result (IsStanding plant.new) }
    ensures passed { OnOk result (may_refuse plant.old ≡ false) }
    ensures allowed { OnErr result (may_refuse plant.old ≡ true) }
{
    plant.fits_shape();
    let mut live = Live::new(plant);
    carry_out(&mut live, slot, service)?;
    plant.leave()
}
