//! The run of a world: turn after turn, until no process is live or the steps come to the budget. A panic is served, and
//! the run goes on.
ghost use Rattle.std.specs.Prelude.{◌≡◌, ◌<◌, ◌≤◌, [], false, true, length, List, Some, IfNone, IfSome};
ghost use Rattle.ow_base.specs.declared.worlds.Load.{Load};
ghost use Rattle.record_layouts.specs.Unix.Panics.{RunWith};
ghost use Rattle.record_layouts.specs.Unix.Turn.{ending_of};
ghost use Rattle.ow_plant.specs.State.{IsReady};
ghost use Rattle.ow_plant.specs.declared.points.PanicPoint.{PanicPoint};
ghost use Rattle.kernel_traps.specs.Boot.{IsBootable};
ghost use Rattle.kernel_traps.specs.Plants.{IsSound, unix_at};
ghost use Rattle.schedule_runner.specs.Histories.{AreFresh, images_of, lines_of, world_of};
ghost use Rattle.schedule_runner.specs.Progress.{HasCome, HasEnded, to_come};

use crate::serving::serve_panic;
use kernel_traps::{Turn, all_have_ended, boot, serve_trap, shutdown};
use ow_base::{Ending, Load};
use ow_plant::{Panicked, Plant};
use world_file::RunLog;

// Makes a turn, or tells how the run ends, and then nothing is done.
fn turn(plant: &mut Plant, load: &Load, log: &mut RunLog) -> Option<Ending>
    requires come { (points : List PanicPoint) × HasCome load.now points plant.old log.old }
    ensures come { (points : List PanicPoint) → HasCome load.now points plant.old log.old → HasCome load.now points plant.new log.new }
    ensures ends { IfSome result (λ ending. ending_of load.now.shape (unix_at plant.new) ≡ Some ending) }
    ensures no_farther { to_come plant.new ≤ to_come plant.old }
    ensures nearer { IfNone result (to_come plant.new < to_come plant.old) }
{
    if plant.steps() == load.shape.budget && !all_have_ended(plant) {
        return Some(Ending::Budget);
    }
    match serve_trap(plant) {
        Ok(Turn::AllEnded) => Some(Ending::Done),
        Ok(Turn::Step) => None,
        Ok(Turn::Trap) => None,
        Err(Panicked) => {
            plant.refusals_are_exact();
            serve_panic(plant, log);
            None
        }
    }
}

// The closing trap, with which the run ends. Where a panic comes in it another one is still to come.
fn close(plant: &mut Plant, log: &mut RunLog) -> bool
    requires come { (load : Load) × (points : List PanicPoint) × HasCome load points plant.old log.old }
    requires ends { (ending : Ending) × (ending_of plant.old.shape (unix_at plant.old) ≡ Some ending) }
    ensures ended { (load : Load) (points : List PanicPoint) (ending : Ending) → HasCome load points plant.old log.old
        → ending_of plant.old.shape (unix_at plant.old) ≡ Some ending → result ≡ true → HasEnded load points ending plant.new log.new }
    ensures come { (load : Load) (points : List PanicPoint) → HasCome load points plant.old log.old → result ≡ false → HasCome load points plant.new log.new }
    ensures nearer { result ≡ false → to_come plant.new < to_come plant.old }
{
    match shutdown(plant) {
        Ok(()) => true,
        Err(Panicked) => {
            plant.refusals_are_exact();
            serve_panic(plant, log);
            false
        }
    }
}

/// Runs a world with this load on a machine that is armed for it: the kernel boots, makes turn after turn, and closes. The
/// run is done where no process is live, and else ends where its steps come to the budget.
///
/// Where a panic comes it is entered, a kernel is revived of what it left, and the run goes on; the log tells what became
/// of the processes, and must have room for as many panics as the machine has points.
pub fn run(plant: &mut Plant, load: &Load, log: &mut RunLog) -> Ending
    requires ready { IsReady load.now.shape plant.old }
    requires load { IsBootable load.now }
    requires points { AreFresh plant.old.points }
    requires empty { log.old.entries ≡ [] }
    requires room { length plant.old.points ≤ log.old.room }
    ensures run { RunWith (world_of load.now plant.old.points) (images_of plant.new) plant.new.history log.new.entries result (unix_at plant.new) }
    ensures sound { IsSound plant.new }
    ensures shape { plant.new.shape ≡ plant.old.shape }
    ensures points { lines_of plant.new.points ≡ lines_of plant.old.points }
{
    plant.fits_shape();
    boot(plant, load);
    loop {
        if let Some(ending) = turn(plant, load, log) {
            if close(plant, log) {
                return ending;
            }
        }
    }
}
