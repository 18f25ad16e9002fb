//! The traps, each from its begin to its end.
ghost use Rattle.std.specs.Prelude.{◌≡◌, ◌-◌, ◌^◌, ◌<◌, ◌≤◌, ℕ, true, Some, IfSome, OnOk, OnErr, is_some};
ghost use Rattle.phys_memory.specs.Memory.{words_of};
ghost use Rattle.record_layouts.specs.Decode.{slot_by};
ghost use Rattle.record_layouts.specs.Patch.{IsPatch};
ghost use Rattle.record_layouts.specs.Unix.Traps.{after_trap, steps_in};
ghost use Rattle.syscalls.specs.Serving.{IsDoable, plan_of};
ghost use Rattle.intent_store.specs.Live.{records_held};
ghost use Rattle.kernel_traps.specs.Broken.{IsLeftFrom};
ghost use Rattle.kernel_traps.specs.Plants.{IsHeldSound, IsSound, unix_at};
ghost use Rattle.kernel_traps.specs.Traps.{IsDue, IsHad, IsNoPanicNext, IsPanicNext, IsTrapMade, IsWithin, plan_for, served_items};

use crate::ending::end_trap;
use intent_store::live_records;
use ow_base::Panicked;
use ow_plant::Plant;
use process_table::{end_process, save_bank, take_signal};
use record_layouts::{AnyRec, HeadRec, Patch, RecordId, RecordView, Trap};
use syscalls::{Service, enter_call, next_piece};

// The status word of a process that a fault ends is more than the cause by this.
const FAULT: u32 = 0x200;

// The pid of a trap that no process has.
const NO_PID: u32 = 0;

// The slot of a trap that no process has: its service sets the head alone, so that any slot serves.
const ANY_SLOT: u32 = 0;

// The slot in which a pid is live.
fn slot_of<V: RecordView>(view: &V, pid: u32) -> u32
    requires some { 1 ≤ pid }
    requires pid { pid ≤ 256 }
    requires live { is_some (slot_by ((V.records view.now).exits pid)) ≡ true }
    ensures { slot_by ((V.records view.now).exits pid) ≡ Some result }
{
    view.exit(pid).unwrap().value
}

// The slot of a trap that has begun.
fn slot_for(plant: &Plant, trap: Trap) -> u32
    requires sound { IsHeldSound plant.now }
    requires had { (slot : ℕ) × IsHad (records_held plant.now) trap slot }
    ensures { IsHad (records_held plant.now) trap result }
{
    match trap.pid() {
        Some(pid) => slot_of(&live_records(plant), pid),
        None => ANY_SLOT,
    }
}

// The head says that the trap is served, and nothing else changes.
fn only_served<V: RecordView>(view: &V, trap: u32) -> Patch
    requires head { is_some (V.records view.now).head ≡ true }
    ensures items { IfSome (V.records view.now).head (λ head. result.items.items ≡ served_items head trap) }
    ensures patch { IsPatch result.items.items }
{
    let head = HeadRec {
        served: trap,
        ..view.head().unwrap()
    };
    let mut patch = Patch::new();
    patch.put(RecordId::Head, AnyRec::Head(head));
    patch
}

// The service of a trap that has begun, whose process has this slot.
fn service_for(plant: &Plant, trap: Trap, slot: u32) -> Service
    requires sound { IsHeldSound plant.now }
    requires had { IsHad (records_held plant.now) trap slot }
    ensures plan { IfSome (records_held plant.now).head (λ head. IfSome ((records_held plant.now).procs slot) (λ process.
        plan_of result ≡ plan_for plant.now trap slot head process)) }
    ensures doable { IsDoable (records_held plant.now) (words_of plant.now.memory) slot result }
{
    let now = plant.now();
    let view = live_records(plant);
    let patch = match trap {
        Trap::Entry(_) => return enter_call(&view, slot, plant.bank(), &now),
        Trap::Piece(_) => return next_piece(&view, slot, &now),
        Trap::Fault { cause, .. } => end_process(&view, slot, FAULT + cause, now.trap),
        Trap::Slice(_) | Trap::Closing(Some(_)) => save_bank(&view, slot, plant.bank(), now.trap),
        Trap::Signal { .. } => take_signal(&view, slot, now.trap),
        Trap::Idle | Trap::Closing(None) => only_served(&view, now.trap),
    };
    Service::Once { patch }
}

/// Makes a trap.
///
/// `Panicked` comes only where a store of it, or its end, was refused.
pub(crate) fn make_trap(plant: &mut Plant, trap: Trap) -> Result<(), Panicked>
    requires sound { IsSound plant.old }
    requires due { IsDue plant.old trap }
    requires within { IsWithin plant.old trap }
    requires traps { plant.old.traps < 2 ^ 32 - 2 }
    ensures ok { OnOk result (IsTrapMade plant.old plant.new (after_trap (unix_at plant.old) trap) (steps_in trap)) }
    ensures left { OnErr result (IsLeftFrom (unix_at plant.old) plant.old trap plant.new) }
    ensures passed { OnOk result (IsNoPanicNext plant.old) }
    ensures allowed { OnErr result (IsPanicNext plant.old) }
{
    plant.fits_shape();
    plant.enter(trap.came(), trap.pid().unwrap_or(NO_PID));
    let slot = slot_for(plant, trap);
    let service = service_for(plant, trap, slot);
    end_trap(plant, slot, &service)
}
