//! A panic that is served: it is entered, a kernel is revived, and the log is told the fates.
ghost use Rattle.std.specs.Prelude.{◌≡◌, ◌<◌, ◌≤◌, true, false, length};
ghost use Rattle.ow_plant.specs.Images.{image_of};
ghost use Rattle.ow_plant.specs.State.{IsArmed, is_refused};
ghost use Rattle.record_layouts.specs.SoundImages.{IsSoundAtPanic};
ghost use Rattle.schedule_runner.specs.Served.{IsServed};

use crate::reviving::revive;
use ow_plant::{Panicked, Plant};
use world_file::RunLog;

/// Enters the panic of a kernel to which a store, or the end of a trap, was refused, revives a kernel of what it left, and
/// adds to the log what became of the processes.
pub(crate) fn serve_panic(plant: &mut Plant, log: &mut RunLog)
    requires armed { IsArmed plant.old }
    requires refused { is_refused plant.old ≡ true }
    requires first { plant.old.reviving ≡ false }
    requires budget { plant.old.steps ≤ plant.old.shape.budget }
    requires sound { IsSoundAtPanic (image_of plant.old) plant.old.steps plant.old.traps }
    requires room { length log.old.entries < log.old.room }
    ensures { IsServed plant.old plant.new log.old log.new }
{
    plant.panic_entry();
    match revive(plant) {
        Ok(revival) => log.add(revival.fates.as_slice()),
        // Every point of the trap was entered with its panic, so no store of the revival is refused.
        Err(Panicked) => unreachable!(),
    }
}
