//! What holds of the processes that are left. The functions do nothing: their contracts are the laws.
ghost use Rattle.std.specs.Prelude.{◌≡◌, ◌↔◌, ◌^◌, ◌<◌, ℕ, Option, Some, true};
ghost use Rattle.record_layouts.specs.declared.dead_proc.DeadProc.{DeadProc};
ghost use Rattle.record_layouts.specs.declared.places.RecordId.{RecordId};
ghost use Rattle.record_layouts.specs.declared.proc.ProcRec.{ProcRec};
ghost use Rattle.record_layouts.specs.Decode.{decodes};
ghost use Rattle.record_layouts.specs.Held.{Records};
ghost use Rattle.record_layouts.specs.Left.{HandedOver, IsFirstUnreadable};
ghost use Rattle.record_layouts.specs.Pages.{frame_of};
ghost use Rattle.dead_reader.specs.Processes.{IsDead};

use frame_table::frames_lie_apart;

/// No two pages of the processes that are left are in one frame, whatever the words of memory are.
pub const fn pages_lie_apart()
    ensures { (r : Records) (handed : Option HandedOver) (slot other page another frame : ℕ) (dead its : DeadProc)
        → page < 2 ^ 20 → another < 2 ^ 20 → IsDead r handed slot dead → IsDead r handed other its
        → frame_of r slot dead.rec page ≡ Some frame → frame_of r other its.rec another ≡ Some frame
        → (slot ≡ other) × (page ≡ another) }
{
    frames_lie_apart();
}

/// A process decodes exactly where none of its parts is the first that cannot be read, and there is one such part at most.
pub const fn unreadable_or_decoded()
    ensures decodes { (r : Records) (slot pid : ℕ)
        → ((one : RecordId) (index : ℕ) → IsFirstUnreadable r slot pid one index → ⊥)
        ↔ ((process : ProcRec) × (r.procs slot ≡ Some process) × (decodes r slot pid process ≡ true)) }
    ensures first { (r : Records) (slot pid : ℕ) (one other : RecordId) (index another : ℕ)
        → IsFirstUnreadable r slot pid one index → IsFirstUnreadable r slot pid other another
        → (one ≡ other) × (index ≡ another) }
{}
