//! What a call makes of the records is what it makes of the Unix. The functions do nothing: their contracts are the laws.

ghost use Rattle.std.specs.Prelude.{◌≡◌, ℕ, ◌+◌, List, length, Some};
ghost use Rattle.ow_base.specs.Sv32.{WordMap};
ghost use Rattle.ow_base.specs.declared.machine.Bank.{Bank};
ghost use Rattle.record_layouts.specs.declared.head.HeadRec.{HeadRec};
ghost use Rattle.record_layouts.specs.declared.proc.ProcRec.{ProcRec};
ghost use Rattle.record_layouts.specs.Unix.Calls.{call_entered, piece_of};
ghost use Rattle.record_layouts.specs.Decode.{InKernel, InUser, unix_of};
ghost use Rattle.record_layouts.specs.Held.{Records};
ghost use Rattle.record_layouts.specs.Sound.{AreSound, IsIn};
ghost use Rattle.record_layouts.specs.Unix.State.{Process};
ghost use Rattle.process_table.specs.Meaning.{KeepDescriptors};
ghost use Rattle.syscalls.specs.Done.{AreCountedFrames, IsDone, KeepsSound};
ghost use Rattle.syscalls.specs.Planned.{items_in, planned_call, planned_piece};
ghost use Rattle.syscalls.specs.Serving.{CanCall, IsInside};

/// Once what the call of a process in user mode asks for is done, the records, the words of pages and the tapes stand
/// for the state in which the call is call_entered. Before, the free user frames and the pages of all live processes are
/// all user frames.
pub const fn calls_are_entered()
    ensures { (r : Records) (words : WordMap) (tapes : ℕ → List ℕ) (slot trap count : ℕ) (head : HeadRec) (process : ProcRec) (bank : Bank)
        (steps traps : ℕ) (p : Process) (done : Records) (done_words : WordMap) (done_tapes : ℕ → List ℕ)
        → AreSound r → r.head ≡ Some head → IsIn r slot process
        → (unix_of r words tapes (InUser process.pid count bank) steps traps).processes process.pid ≡ Some p
        → AreCountedFrames r
        → IsDone r words tapes slot process (planned_call r words slot trap head process bank) done done_words done_tapes
        → unix_of done done_words done_tapes InKernel (steps + 1) (traps + 1) ≡ call_entered (unix_of r words tapes (InUser process.pid count bank) steps traps) process.pid p }
{}

/// Once what the process in a call asks for is done, the records, the words of pages and the tapes stand for the state in
/// which it has made a further piece. No word of a page becomes another where the call is a write (2).
pub const fn pieces_go_on()
    ensures unix { (r : Records) (words : WordMap) (tapes : ℕ → List ℕ) (slot trap : ℕ) (head : HeadRec) (process : ProcRec)
        (steps traps : ℕ) (p : Process) (done : Records) (done_words : WordMap) (done_tapes : ℕ → List ℕ)
        → AreSound r → r.head ≡ Some head → IsIn r slot process → process.state ≡ 2
        → (unix_of r words tapes InKernel steps traps).processes process.pid ≡ Some p
        → IsDone r words tapes slot process (planned_piece r words slot trap head process) done done_words done_tapes
        → unix_of done done_words done_tapes InKernel (steps + 1) (traps + 1) ≡ piece_of (unix_of r words tapes InKernel steps traps) process.pid p }
    ensures words { (r : Records) (words : WordMap) (tapes : ℕ → List ℕ) (slot trap : ℕ) (head : HeadRec) (process : ProcRec)
        (done : Records) (done_words : WordMap) (done_tapes : ℕ → List ℕ) → process.call ≡ 2
        → IsDone r words tapes slot process (planned_piece r words slot trap head process) done done_words done_tapes
        → done_words ≡ words }
{}

/// Calls can be served where records are sound, and a process in a call can make a further piece.
pub const fn sound_records_serve()
    ensures calls { (r : Records) (slot : ℕ) (process : ProcRec) → AreSound r → IsIn r slot process → CanCall r slot }
    ensures pieces { (r : Records) (slot : ℕ) (process : ProcRec) → AreSound r → IsIn r slot process → process.state ≡ 2
        → IsInside r (r.procs slot) }
{}

/// Records on which what a call asks for is done are sound again. Where bytes are written before, so must be the
/// records that this leaves; pages that are prepared before count then. The eight words of descriptors are those of the
/// process's record.
pub const fn calls_keep_sound()
    ensures calls { (r : Records) (words : WordMap) (slot trap : ℕ) (head : HeadRec) (process : ProcRec) (bank : Bank) → AreSound r → r.head ≡ Some head → IsIn r slot process
        → process.state ≡ 1 → length process.descs ≡ 8 → KeepsSound r slot process (planned_call r words slot trap head process bank) }
    ensures pieces { (r : Records) (words : WordMap) (slot trap : ℕ) (head : HeadRec) (process : ProcRec) → AreSound r → r.head ≡ Some head → IsIn r slot process
        → process.state ≡ 2 → KeepsSound r slot process (planned_piece r words slot trap head process) }
{}

/// Processes that are live once what a call asks for is done were live before, with the same descriptors.
pub const fn calls_keep_descriptors()
    ensures calls { (r : Records) (words : WordMap) (slot trap : ℕ) (head : HeadRec) (process : ProcRec) (bank : Bank) → AreSound r → IsIn r slot process
        → KeepDescriptors r (items_in (planned_call r words slot trap head process bank)) }
    ensures pieces { (r : Records) (words : WordMap) (slot trap : ℕ) (head : HeadRec) (process : ProcRec) → AreSound r → IsIn r slot process
        → KeepDescriptors r (items_in (planned_piece r words slot trap head process)) }
{}
