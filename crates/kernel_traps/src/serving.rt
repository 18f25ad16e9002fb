//! The turns of a kernel that runs, and its end.
ghost use Rattle.std.specs.Prelude.{◌≡◌, ◌-◌, ◌^◌, ◌<◌, ◌⊎◌, true, false, IfOk, OnOk, OnErr};
ghost use Rattle.record_layouts.specs.Unix.Traps.{closing_of};
ghost use Rattle.record_layouts.specs.Unix.Turn.{closed};
ghost use Rattle.process_table.specs.Choosing.{IsWork};
ghost use Rattle.process_table.specs.declared.choice.Choice.TheVariants as choice;
ghost use Rattle.ow_plant.specs.State.{now_of};
ghost use Rattle.intent_store.specs.Live.{records_held};
ghost use Rattle.kernel_traps.specs.Broken.{IsLeftOfTrap, IsLeftOfTurn};
ghost use Rattle.kernel_traps.specs.Due.{IsNextTurn, IsTrapNext};
ghost use Rattle.kernel_traps.specs.Plants.{IsSound, unix_at};
ghost use Rattle.kernel_traps.specs.Traps.{HasPassed, IsAllEnded, IsDue, IsNoPanicNext, IsPanicNext, IsTrapMade};
ghost use Rattle.kernel_traps.specs.Turning.{AllHaveEnded, IsTurn};

use crate::ended::next_choice;
use crate::traps::make_trap;
use crate::turns::{Next, Turn};
use crate::user::{next_in_user, return_to};
use intent_store::live_records;
use ow_base::Panicked;
use ow_plant::Plant;
use process_table::{Choice, signal_of};
use record_layouts::{RecordView, Trap};

// The trap in which the process of a slot goes on in its call.
fn piece_in(plant: &Plant, slot: u32) -> Trap
    requires sound { IsSound plant.now }
    requires in_kernel { plant.now.in_user ≡ false }
    requires work { IsWork (records_held plant.now) (now_of plant.now) slot (choice.Piece slot) }
    ensures { IsTrapNext plant.now plant.now result }
{
    let view = live_records(plant);
    let process = view.proc(slot).unwrap();
    Trap::Piece(process.pid)
}

// The trap in which a signal goes to it.
fn signal_in(plant: &Plant, slot: u32) -> Trap
    requires sound { IsSound plant.now }
    requires in_kernel { plant.now.in_user ≡ false }
    requires work { IsWork (records_held plant.now) (now_of plant.now) slot (choice.Signal slot) }
    ensures { IsTrapNext plant.now plant.now result }
{
    let view = live_records(plant);
    let process = view.proc(slot).unwrap();
    let signal = signal_of(&view, slot, &process).unwrap();
    Trap::Signal {
        pid: process.pid,
        signal,
    }
}

// What comes next: control returns to the chosen process, where no process is in user mode, and the one in user mode
// makes an instruction, unless a trap is next.
fn next_turn(plant: &mut Plant) -> Next
    requires sound { IsSound plant.old }
    requires budget { (plant.old.steps < plant.old.shape.budget) ⊎ AllHaveEnded plant.old }
    ensures { IsNextTurn plant.old plant.new result }
{
    if plant.in_user() {
        return next_in_user(plant);
    }
    match next_choice(plant) {
        Choice::User(slot) => {
            return_to(plant, slot);
            next_in_user(plant)
        }
        Choice::Piece(slot) => Next::Trap(piece_in(plant, slot)),
        Choice::Signal(slot) => Next::Trap(signal_in(plant, slot)),
        Choice::Idle => Next::Trap(Trap::Idle),
        Choice::AllEnded => Next::AllEnded,
    }
}

// The closing trap.
fn closing_in(plant: &Plant) -> Trap
    requires sound { IsSound plant.now }
    ensures same { result ≡ closing_of (unix_at plant.now) }
    ensures due { IsDue plant.now result }
{
    if plant.in_user() {
        Trap::Closing(Some(plant.user_pid()))
    } else {
        Trap::Closing(None)
    }
}

/// One turn of the machine: an instruction of the process in user mode, or a trap. Where no process is live nothing is
/// done.
///
/// `Panicked` comes only where a store of the trap, or its end, was refused, and a trap that was made had no panic listed
/// for it.
pub fn serve_trap(plant: &mut Plant) -> Result<Turn, Panicked>
    requires sound { IsSound plant.old }
    requires traps { plant.old.traps < 2 ^ 32 - 2 }
    requires budget { (plant.old.steps < plant.old.shape.budget) ⊎ AllHaveEnded plant.old }
    ensures ok { IfOk result (IsTurn plant.old plant.new) }
    ensures ended { AllHaveEnded plant.old → IsAllEnded result }
    ensures err { OnErr result (IsLeftOfTurn plant.old plant.new) }
    ensures passed { IfOk result (HasPassed plant.old) }
    ensures allowed { OnErr result (IsPanicNext plant.old) }
{
    match next_turn(plant) {
        Next::Step => Ok(Turn::Step),
        Next::Trap(trap) => {
            make_trap(plant, trap)?;
            Ok(Turn::Trap)
        }
        Next::AllEnded => Ok(Turn::AllEnded),
    }
}

/// The closing trap: what the processor has of a process in user mode is saved, and the head says that the trap is
/// served. It is no step.
pub fn shutdown(plant: &mut Plant) -> Result<(), Panicked>
    requires sound { IsSound plant.old }
    requires traps { plant.old.traps < 2 ^ 32 - 2 }
    ensures ok { OnOk result (IsTrapMade plant.old plant.new (closed (unix_at plant.old)) 0) }
    ensures err { OnErr result (IsLeftOfTrap plant.old (closing_of (unix_at plant.old)) plant.new) }
    ensures passed { OnOk result (IsNoPanicNext plant.old) }
    ensures allowed { OnErr result (IsPanicNext plant.old) }
{
    let trap = closing_in(plant);
    make_trap(plant, trap)
}
