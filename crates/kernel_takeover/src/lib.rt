//! The last store of a revival: the kernel that was built takes over.
#![tactic(auto)]

ghost use Rattle.std.specs.Prelude.{◌≡◌, ◌↔◌, true, IsErr, IsTrue, None, OnErr, OnOk, Some};
ghost use Rattle.ow_plant.specs.State.{refuses, store_refused, with_live};
ghost use Rattle.ow_plant.specs.declared.refusal.Refusal.TheVariants.{Store};
ghost use Rattle.kernel_takeover.specs.Areas.{other_area};

use ow_base::{AreaId, Panicked};
use ow_plant::Plant;

// The area that is not this one.
fn other_area(area: AreaId) -> AreaId
    ensures { result ≡ other_area area }
{
    match area {
        AreaId::A => AreaId::B,
        AreaId::B => AreaId::A,
    }
}

/// Makes the area live that is not, by the one store of the live register, and so ends what a panic began.
///
/// A panic was entered, and no area was made live since. `Panicked` comes exactly where the plant refuses that store; then
/// the area that was live still is.
pub fn take_over(plant: &mut Plant) -> Result<(), Panicked>
    requires armed { plant.old.armed ≡ true }
    requires reviving { plant.old.reviving ≡ true }
    ensures exact { IsTrue (refuses plant.old) ↔ IsErr result }
    ensures ok { OnOk result (plant.new ≡ with_live plant.old (other_area plant.old.live)) }
    ensures err { OnErr result (plant.new ≡ store_refused plant.old) }
    ensures cause { OnErr result (plant.old.refusal ≡ None → plant.new.refusal ≡ Some Store) }
{
    let area = other_area(plant.live());
    plant.set_live(area)
}
