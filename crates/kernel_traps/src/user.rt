//! User mode: control goes to a process, and the process makes instructions.
ghost use Rattle.std.specs.Prelude.{◌≡◌, ◌<◌, true, false};
ghost use Rattle.record_layouts.specs.declared.proc.ProcRec.{ProcRec};
ghost use Rattle.kernel_traps.specs.Due.{IsNextInUser};
ghost use Rattle.kernel_traps.specs.Plants.{IsSound};
ghost use Rattle.kernel_traps.specs.User.{IsOutside, IsReturned, IsUserTurn};

use crate::turns::Next;
use intent_store::live_records;
use ow_plant::{Bank, Plant, UserEnd};
use record_layouts::{FIRST_TABLE, RecordView, TABLES_OF_SLOT, Trap};

// Control goes to the process in a slot, which is outside a call: its bank is loaded and its tables are in use.
pub(crate) fn return_to(plant: &mut Plant, slot: u32)
    requires sound { IsSound plant.old }
    requires in_kernel { plant.old.in_user ≡ false }
    requires process { (process : ProcRec) × IsOutside plant.old slot process }
    ensures returned { IsReturned plant.old slot plant.new }
    ensures sound { IsSound plant.new }
{
    let view = live_records(plant);
    let process = view.proc(slot).unwrap();
    let root = view.area_base() + FIRST_TABLE + TABLES_OF_SLOT * slot;
    let bank = Bank {
        pc: process.pc,
        regs: process.regs,
    };
    plant.to_user(process.pid, &bank, root);
}

// One turn of the process in user mode: an instruction, or what ends in a trap.
#[tactic(auto, using(crate::proofs::UserTurns::takes_turn))]
fn user_step(plant: &mut Plant) -> UserEnd
    requires sound { IsSound plant.old }
    requires in_user { plant.old.in_user ≡ true }
    requires budget { plant.old.steps < plant.old.shape.budget }
    ensures { IsUserTurn plant.old plant.new result }
{
    plant.fits_shape();
    plant.user_step()
}

// The turn of the process in user mode: an instruction is made, or a trap is next. It stands where it is called, so that
// what it tells of most turns, that an instruction was made, does not go through memory.
#[inline(always)]
pub(crate) fn next_in_user(plant: &mut Plant) -> Next
    requires sound { IsSound plant.old }
    requires in_user { plant.old.in_user ≡ true }
    requires budget { plant.old.steps < plant.old.shape.budget }
    ensures { IsNextInUser plant.old plant.new result }
{
    let pid = plant.user_pid();
    match user_step(plant) {
        UserEnd::Next => Next::Step,
        UserEnd::Slice => Next::Trap(Trap::Slice(pid)),
        UserEnd::Call => Next::Trap(Trap::Entry(pid)),
        UserEnd::Fault(fault) => Next::Trap(Trap::Fault {
            pid,
            cause: fault.cause,
        }),
    }
}
