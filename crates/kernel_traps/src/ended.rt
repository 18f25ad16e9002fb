//! Whether a process is live.
ghost use Rattle.std.specs.Prelude.{IsTrue, ◌↔◌};
ghost use Rattle.process_table.specs.Choosing.{IsChoice};
ghost use Rattle.ow_plant.specs.State.{now_of};
ghost use Rattle.intent_store.specs.Live.{records_held};
ghost use Rattle.kernel_traps.specs.Plants.{IsSound};
ghost use Rattle.kernel_traps.specs.Turning.{AllHaveEnded};

use intent_store::live_records;
use ow_plant::Plant;
use process_table::{Choice, choose};

/// What the kernel would do next.
pub(crate) fn next_choice(plant: &Plant) -> Choice
    ensures { IsChoice (records_held plant.now) (now_of plant.now) result }
{
    choose(&live_records(plant), &plant.now())
}

/// Whether no process is live.
pub fn all_have_ended(plant: &Plant) -> bool
    requires sound { IsSound plant.now }
    ensures { IsTrue result ↔ AllHaveEnded plant.now }
{
    if plant.in_user() {
        return false;
    }
    match next_choice(plant) {
        Choice::User(_) => false,
        Choice::Piece(_) => false,
        Choice::Signal(_) => false,
        Choice::Idle => false,
        Choice::AllEnded => true,
    }
}
