//! What holds of the kernel that is built. The functions do nothing: their contracts are the laws.
ghost use Rattle.std.specs.Prelude.{◌≡◌, ℕ};
ghost use Rattle.ow_base.specs.Sv32.{WordMap};
ghost use Rattle.ow_plant.specs.Dead.{DeadState};
ghost use Rattle.record_layouts.specs.declared.memory_map.MemoryMap.{MemoryMap};
ghost use Rattle.record_layouts.specs.declared.proc.ProcRec.{ProcRec};
ghost use Rattle.record_layouts.specs.Held.{AreComplete, AreValues};
ghost use Rattle.record_layouts.specs.Reading.{records_of};
ghost use Rattle.record_layouts.specs.Sound.{IsIn};
ghost use Rattle.kernel_builder.specs.Reading.{IsReadAs};
ghost use Rattle.resurrector.specs.Revived.{plan_of};

/// Each record of the new kernel decodes, to one that can be spelled, whatever the words of the dead one are.
pub const fn revived_records_decode()
    ensures complete { (dead : DeadState) (words own : WordMap) (map : MemoryMap) → IsReadAs map (plan_of dead words) own
        → AreComplete (records_of map own) }
    ensures values { (dead : DeadState) (words own : WordMap) (map : MemoryMap) → IsReadAs map (plan_of dead words) own
        → AreValues (records_of map own) }
{}

/// No process of the new kernel is in a call: one that a panic found in a call was answered, or makes it again.
pub const fn revived_processes_are_outside()
    ensures { (dead : DeadState) (words own : WordMap) (map : MemoryMap) → IsReadAs map (plan_of dead words) own
        → (slot : ℕ) (process : ProcRec) → IsIn (records_of map own) slot process → process.state ≡ 1 }
{}
