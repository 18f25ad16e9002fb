//! What the choice and the patches are in the Unix that the records stand for, and what is counted there. The functions
//! do nothing: their contracts are the laws.

ghost use Rattle.std.specs.Prelude.{◌≡◌, ◌↔◌, ℕ, ◌+◌, ◌<◌, nat_le, not, List, Bool, true, false, Option, Some, None};
ghost use Rattle.ow_base.specs.Sv32.{WordMap};
ghost use Rattle.ow_base.specs.declared.machine.Bank.{Bank};
ghost use Rattle.ow_base.specs.declared.machine.Now.{Now};
ghost use Rattle.record_layouts.specs.declared.head.HeadRec.{HeadRec};
ghost use Rattle.record_layouts.specs.declared.patch.PatchItem.{PatchItem};
ghost use Rattle.record_layouts.specs.declared.proc.ProcRec.{ProcRec};
ghost use Rattle.record_layouts.specs.declared.sig.SigRec.{SigRec};
ghost use Rattle.record_layouts.specs.Unix.Calls.{ended_as, slots_taken, trapped};
ghost use Rattle.record_layouts.specs.Unix.Children.{has_child};
ghost use Rattle.record_layouts.specs.Unix.Choice.{chosen, deliverable, has_live_process, is_any};
ghost use Rattle.record_layouts.specs.Decode.{Context, InKernel, InUser, call_of, ended_of, process_of, processes_of, unix_of};
ghost use Rattle.record_layouts.specs.Held.{Records, with_items};
ghost use Rattle.record_layouts.specs.Pages.{live_one};
ghost use Rattle.record_layouts.specs.Unix.Signals.{signalled};
ghost use Rattle.record_layouts.specs.Sound.{AreOnTerminals, AreSound, IsIn};
ghost use Rattle.record_layouts.specs.Spelling.{IsStatus};
ghost use Rattle.record_layouts.specs.Unix.State.{Process, sum_from};
ghost use Rattle.process_table.specs.Choosing.{IsRest, IsWork, keys_of, next_signal, signal_by};
ghost use Rattle.process_table.specs.Meaning.{IsOf, KeepDescriptors};
ghost use Rattle.process_table.specs.Patches.{ended_items, fork_items, saved_items, saved_process, signal_items, wait_items};
ghost use Rattle.process_table.specs.Children.{IsWaited, child_slot};
ghost use Rattle.process_table.specs.Slots.{IsFull, has_such, is_free, is_live_child, is_live_pid};
ghost use Rattle.process_table.specs.declared.choice.Choice.{Choice};

/// A process that ends by records has ended in the Unix, with this status word. The processor was in the kernel or in
/// this process.
pub const fn an_end_is_an_end()
    ensures { (r : Records) (head : HeadRec) (slot : ℕ) (process : ProcRec) (status trap : ℕ) (words : WordMap)
        (tapes : ℕ → List ℕ) (context : Context) (steps traps : ℕ) (p : Process)
        → AreSound r → r.head ≡ Some head → IsIn r slot process → IsStatus status → IsOf context process.pid
        → (unix_of r words tapes context steps traps).processes process.pid ≡ Some p
        → unix_of (with_items r (ended_items head slot process status trap)) words tapes InKernel (steps + 1) (traps + 1)
        ≡ ended_as (trapped (unix_of r words tapes context steps traps) process.pid) process.pid p status }
{}

/// To save the bank of a process that was in user mode is a trap of it in the Unix, and nothing else.
pub const fn saves_only_count()
    ensures { (r : Records) (head : HeadRec) (slot : ℕ) (process : ProcRec) (bank : Bank) (trap : ℕ) (words : WordMap)
        (tapes : ℕ → List ℕ) (count steps traps : ℕ)
        → AreSound r → r.head ≡ Some head → IsIn r slot process → process.state ≡ 1
        → unix_of (with_items r (saved_items head slot process bank trap)) words tapes InKernel (steps + 1) (traps + 1)
        ≡ trapped (unix_of r words tapes (InUser process.pid count bank) steps traps) process.pid }
{}

/// A signal that goes to a process by records is the next one in the Unix, and does there what it does in the Unix.
pub const fn signals_agree()
    ensures next { (r : Records) (words : WordMap) (slot : ℕ) (process : ProcRec) → AreSound r → IsIn r slot process
        → deliverable (process_of r words slot process) ≡ signal_by process (r.sigs slot) }
    ensures does { (r : Records) (head : HeadRec) (slot : ℕ) (process : ProcRec) (signals : SigRec) (signal trap : ℕ)
        (words : WordMap) (tapes : ℕ → List ℕ) (steps traps : ℕ)
        → AreSound r → r.head ≡ Some head → IsIn r slot process → r.sigs slot ≡ Some signals
        → next_signal process signals ≡ Some signal
        → unix_of (with_items r (signal_items head slot process signals signal trap)) words tapes InKernel (steps + 1) (traps + 1)
        ≡ signalled (unix_of r words tapes InKernel steps traps) process.pid (process_of r words slot process) signal }
{}

/// The process that is chosen by records is the one that the Unix chooses, and where none is chosen by records the Unix
/// chooses none.
pub const fn choices_agree()
    ensures work { (r : Records) (words : WordMap) (tapes : ℕ → List ℕ) (steps traps : ℕ) (now : Now) (slot : ℕ) (choice : Choice)
        → AreSound r → (is : IsWork r now slot choice)
        → chosen (keys_of now) (unix_of r words tapes InKernel steps traps) ≡ Some is.process.pid }
    ensures rest { (r : Records) (words : WordMap) (tapes : ℕ → List ℕ) (steps traps : ℕ) (now : Now) (is_any : Bool)
        → AreSound r → IsRest r now is_any → chosen (keys_of now) (unix_of r words tapes InKernel steps traps) ≡ None }
    ensures live { (r : Records) (words : WordMap) (tapes : ℕ → List ℕ) (steps traps : ℕ) (now : Now) (is_any : Bool)
        → AreSound r → IsRest r now is_any
        → has_live_process (unix_of r words tapes InKernel steps traps) ≡ is_any }
{}

/// Sound records stay sound once a patch of this crate is set.
pub const fn sound_records_stay_sound()
    ensures ended { (r : Records) (head : HeadRec) (slot : ℕ) (process : ProcRec) (status trap : ℕ)
        → AreSound r → r.head ≡ Some head → IsIn r slot process → IsStatus status
        → AreSound (with_items r (ended_items head slot process status trap)) }
    ensures saved { (r : Records) (head : HeadRec) (slot : ℕ) (process : ProcRec) (bank : Bank) (trap : ℕ)
        → AreSound r → r.head ≡ Some head → IsIn r slot process → process.state ≡ 1
        → AreSound (with_items r (saved_items head slot process bank trap)) }
    ensures signalled { (r : Records) (head : HeadRec) (slot : ℕ) (process : ProcRec) (signals : SigRec) (signal trap : ℕ)
        → AreSound r → r.head ≡ Some head → IsIn r slot process → r.sigs slot ≡ Some signals
        → next_signal process signals ≡ Some signal
        → AreSound (with_items r (signal_items head slot process signals signal trap)) }
{}

/// Processes that are live once a patch of this crate is set have the descriptors that they, or the parent of a child
/// that is made, had before, and these name what they named.
pub const fn patches_keep_descriptors()
    ensures ended { (r : Records) (head : HeadRec) (slot : ℕ) (process : ProcRec) (status trap : ℕ)
        → AreSound r → IsIn r slot process → KeepDescriptors r (ended_items head slot process status trap) }
    ensures saved { (r : Records) (head : HeadRec) (slot : ℕ) (process : ProcRec) (bank : Bank) (trap : ℕ)
        → IsIn r slot process → KeepDescriptors r (saved_items head slot process bank trap) }
    ensures signalled { (r : Records) (head : HeadRec) (slot : ℕ) (process : ProcRec) (signals : SigRec) (signal trap : ℕ)
        → AreSound r → r.head ≡ Some head → IsIn r slot process → r.sigs slot ≡ Some signals
        → KeepDescriptors r (signal_items head slot process signals signal trap) }
    ensures forked { (r : Records) (head : HeadRec) (slot child : ℕ) (process : ProcRec) (bank : Bank) (signals : SigRec) (trap : ℕ)
        → IsIn r slot process → live_one (r.procs child) ≡ None
        → KeepDescriptors r (fork_items head slot child (saved_process process bank) signals trap) }
    ensures waited { (r : Records) (head : HeadRec) (slot : ℕ) (process : ProcRec) (bank : Bank) (place pid trap : ℕ)
        → IsIn r slot process → KeepDescriptors r (wait_items head slot (saved_process process bank) place pid trap) }
    ensures terminals { (r : Records) (items : List PatchItem) → KeepDescriptors r items → AreOnTerminals r
        → AreOnTerminals (with_items r items) }
{}

/// What is summed over the pids of live processes can be summed over their slots: there a slot has as its value the
/// weight of its process, and nothing where no process is live.
pub const fn sums_over_pids_are_over_slots()
    ensures { (r : Records) (words : WordMap) (context : Context) (weight : Option Process → ℕ) (value : (slot : ℕ) → ℕ)
        → AreSound r → weight None ≡ 0
        → ((slot : ℕ) (process : ProcRec) → IsIn r slot process → weight (processes_of r words context process.pid) ≡ value slot)
        → ((slot : ℕ) → slot < 16 → live_one (r.procs slot) ≡ None → value slot ≡ 0)
        → sum_from (λ pid. weight (processes_of r words context pid)) 1 256 ≡ sum_from value 0 16 }
{}

/// All slots are taken in the Unix exactly where by records none can be taken.
pub const fn all_slots_are_taken()
    ensures taken { (r : Records) (words : WordMap) (tapes : ℕ → List ℕ) (context : Context) (steps traps : ℕ) → AreSound r
        → nat_le 16 (slots_taken (unix_of r words tapes context steps traps)) ≡ not (is_any (λ slot. is_free r (r.procs slot)) 0 16) }
    ensures full { (r : Records) → is_any (λ slot. is_free r (r.procs slot)) 0 16 ≡ false ↔ IsFull r }
{}

/// A process that has ended and whose parent is live is an ended child in the Unix, under its pid, which no live process
/// has.
pub const fn ended_children_keep_slots()
    ensures child { (r : Records) (words : WordMap) (context : Context) (slot : ℕ) (process : ProcRec)
        → AreSound r → slot < 16 → r.procs slot ≡ Some process → process.state ≡ 3 → is_live_pid r process.parent ≡ true
        → ended_of r (processes_of r words context) process.pid ≡ Some (record { parent = process.parent; status = process.status }) }
    ensures apart { (r : Records) (words : WordMap) (context : Context) (slot : ℕ) (process : ProcRec)
        → AreSound r → r.procs slot ≡ Some process → process.state ≡ 3 → processes_of r words context process.pid ≡ None }
{}

/// The child that a process waits for by records is the one that it waits for in the Unix, and it has a child that goes
/// on by records exactly where it has in the Unix.
pub const fn waits_agree()
    ensures child { (r : Records) (words : WordMap) (tapes : ℕ → List ℕ) (context : Context) (steps traps : ℕ) (slot : ℕ) (process : ProcRec)
        → AreSound r → IsIn r slot process
        → IsWaited r (unix_of r words tapes context steps traps) process.pid (child_slot r process.pid) }
    ensures live { (r : Records) (words : WordMap) (tapes : ℕ → List ℕ) (context : Context) (steps traps : ℕ) (parent : ℕ) → AreSound r
        → has_child (unix_of r words tapes context steps traps) parent ≡ has_such r (is_live_child parent) }
{}
