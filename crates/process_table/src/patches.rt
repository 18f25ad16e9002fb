//! What is set when a trap of a process ends.
ghost use Rattle.std.specs.Prelude.{◌≡◌, ◌≢◌, ◌+◌, ◌<◌, ◌≤◌, IfSome, true, is_some, [], ◌∷◌};
ghost use Rattle.record_layouts.specs.declared.places.RecordId.TheVariants as id;
ghost use Rattle.record_layouts.specs.declared.patch.AnyRec.TheVariants as any;
ghost use Rattle.record_layouts.specs.Head.{FitsHead};
ghost use Rattle.record_layouts.specs.Pages.{is_live};
ghost use Rattle.record_layouts.specs.Patch.{IsPatch};
ghost use Rattle.record_layouts.specs.Proc.{FitsProc};
ghost use Rattle.record_layouts.specs.Spelling.{IsStatus};
ghost use Rattle.process_table.specs.Choosing.{HasSignal};
ghost use Rattle.process_table.specs.Patches.{IsEnding, IsSaving, IsSignalling};
ghost use Rattle.process_table.specs.Patches.{answered_process, fork_items, forked_head, forked_process, free_process, wait_items};
ghost use Rattle.process_table.specs.Patches.{blank_bank, ended_items, ended_process, head_item, in_handler, interrupted, process_item, saved_process, signalled_process, without_signal};
ghost use Rattle.process_table.specs.Slots.{is_live_one};

use crate::signals::{next_signal, without_signal};
use crate::slots::{ENDED, FREE, OUTSIDE};
use ow_base::{Bank, Regs};
use record_layouts::{AnyRec, ExitRec, HeadRec, Patch, ProcRec, RecordId, RecordView, SigRec};

// The register a0.
const ANSWER: u32 = 10;

// What a call answers that a signal ends before a byte is done: minus EINTR.
const INTERRUPTED: u32 = 0xffff_fffc;

// The status word of a process that a signal ends is more than the signal by this.
const KILLED: u32 = 0x100;

// All registers and the pc are 0.
fn blank_bank() -> Bank
    ensures { result ≡ blank_bank }
{
    Bank {
        pc: 0,
        regs: Regs::new(),
    }
}

// What is left of a process that has ended.
fn ended(process: &ProcRec, status: u32) -> ProcRec
    ensures { result ≡ ended_process process.now status }
{
    ProcRec {
        state: ENDED,
        pid: process.pid,
        parent: process.parent,
        call: 0,
        done: 0,
        code_pages: 0,
        data_pages: 0,
        brk: 0,
        procedure: 0,
        mask: 0,
        flags: 0,
        status,
        descs: [0; 8],
        regs: Regs::new(),
        pc: 0,
        handler_save: blank_bank(),
        crash_save: blank_bank(),
    }
}

// The trap is done, and the process of the slot that had it becomes this.
fn served(head: &HeadRec, trap: u32, slot: u32, process: &ProcRec) -> Patch
    requires head { FitsHead head.now }
    requires slot { slot < 16 }
    requires process { FitsProc process.now }
    ensures items { result.items.items ≡ head_item head.now trap process.now.pid ∷ process_item slot process.now ∷ [] }
    ensures patch { IsPatch result.items.items }
{
    let head = HeadRec {
        served: trap,
        last: process.pid,
        ..*head
    };
    let mut patch = Patch::new();
    patch.put(RecordId::Head, AnyRec::Head(head));
    patch.put(RecordId::Proc(slot), AnyRec::Proc(*process));
    patch
}

// The live process of the slot ends with this status word.
#[tactic(auto, unfolding(crate::specs::Patches::ended_items))]
fn ending(head: &HeadRec, slot: u32, process: &ProcRec, status: u32, trap: u32) -> Patch
    requires head { FitsHead head.now }
    requires slot { slot < 16 }
    requires process { FitsProc process.now }
    requires live { is_live process.now ≡ true }
    requires status { IsStatus status }
    ensures items { result.items.items ≡ ended_items head.now slot process.now status trap }
    ensures patch { IsPatch result.items.items }
{
    let mut patch = served(head, trap, slot, &ended(process, status));
    let exit = ExitRec {
        state: 2,
        value: status,
    };
    patch.put(RecordId::Exit(process.pid), AnyRec::Exit(exit));
    patch
}

// The process with the call ended that it is in, if any.
fn interrupted(process: &ProcRec) -> ProcRec
    ensures { result ≡ interrupted process.now }
{
    if !process.is_in_call() {
        return *process;
    }
    let mut regs = process.regs;
    regs.set(
        ANSWER,
        if process.done == 0 {
            INTERRUPTED
        } else {
            process.done
        },
    );
    ProcRec {
        state: OUTSIDE,
        call: 0,
        done: 0,
        pc: process.pc.wrapping_add(4),
        regs,
        ..*process
    }
}

// The process as its handler begins.
fn in_handler(process: &ProcRec, signal: u32, handler: u32) -> ProcRec
    ensures { result ≡ in_handler process.now signal handler }
{
    let handler_save = Bank {
        pc: process.pc,
        regs: process.regs,
    };
    let mut regs = process.regs;
    regs.set(ANSWER, signal);
    ProcRec {
        flags: process.flags / 2 * 2 + 1,
        handler_save,
        pc: handler,
        regs,
        ..*process
    }
}

// The process once the signal has gone to it, where its handler does not end it.
fn signalled(process: &ProcRec, signal: u32, handler: u32) -> ProcRec
    ensures { result ≡ signalled_process process.now signal handler }
{
    if handler == 1 {
        *process
    } else {
        in_handler(&interrupted(process), signal, handler)
    }
}

/// What ends the live process of a slot with a status word: the trap `trap` is done and its process the last one that
/// had one, the process record keeps pid, parent and status alone, and the exit record has the status.
pub fn end_process<V: RecordView>(view: &V, slot: u32, status: u32, trap: u32) -> Patch
    requires head { is_some (V.records view.now).head ≡ true }
    requires slot { slot < 16 }
    requires live { is_live_one ((V.records view.now).procs slot) ≡ true }
    requires status { IsStatus status }
    ensures items { IsEnding (V.records view.now) slot status trap result.items.items }
    ensures patch { IsPatch result.items.items }
{
    let head = view.head().unwrap();
    let process = view.proc(slot).unwrap();
    ending(&head, slot, &process, status, trap)
}

// The process behind its call, with this answer.
fn answered(process: &ProcRec, answer: u32) -> ProcRec
    ensures { result ≡ answered_process process.now answer }
{
    let mut regs = process.regs;
    regs.set(ANSWER, answer);
    ProcRec {
        state: OUTSIDE,
        call: 0,
        done: 0,
        pc: process.pc.wrapping_add(4),
        regs,
        ..*process
    }
}

// The child of the process, under this pid.
fn forked(process: &ProcRec, pid: u32) -> ProcRec
    ensures { result ≡ forked_process process.now pid }
{
    ProcRec {
        pid,
        parent: process.pid,
        ..answered(process, 0)
    }
}

// What is set of the two processes and the head, as the process forks.
fn forking(head: &HeadRec, slot: u32, child: u32, process: &ProcRec, trap: u32) -> Patch
    requires head { FitsHead head.now }
    requires next { head.now.next ≤ 256 }
    requires slot { slot < 16 }
    requires child { child < 16 }
    requires apart { slot ≢ child }
    requires process { FitsProc process.now }
    requires live { is_live process.now ≡ true }
    ensures items { result.items.items ≡ record { id = id.Head; rec = any.Head (forked_head head.now trap process.now.pid) }
        ∷ process_item slot (answered_process process.now head.now.next) ∷ process_item child (forked_process process.now head.now.next) ∷ [] }
    ensures patch { IsPatch result.items.items }
{
    let after = HeadRec {
        served: trap,
        last: process.pid,
        next: head.next + 1,
        ..*head
    };
    let mut patch = Patch::new();
    patch.put(RecordId::Head, AnyRec::Head(after));
    let parent = answered(process, head.next);
    patch.put(RecordId::Proc(slot), AnyRec::Proc(parent));
    let copy = forked(process, head.next);
    patch.put(RecordId::Proc(child), AnyRec::Proc(copy));
    patch
}

/// What makes a child of the live process of a slot, in a slot of its own: the trap `trap` is done, the process is
/// answered with the next pid, and the child is a copy to which the call answers 0. It has the handlers of the process,
/// no signal pending, and the process as its parent.
#[tactic(auto, unfolding(crate::specs::Patches::fork_items))]
pub fn fork_process(
    head: &HeadRec,
    slot: u32,
    child: u32,
    process: &ProcRec,
    signals: &SigRec,
    trap: u32,
) -> Patch
    requires head { FitsHead head.now }
    requires next { head.now.next ≤ 256 }
    requires slot { slot < 16 }
    requires child { child < 16 }
    requires apart { slot ≢ child }
    requires process { FitsProc process.now }
    requires live { is_live process.now ≡ true }
    ensures items { result.items.items ≡ fork_items head.now slot child process.now signals.now trap }
    ensures patch { IsPatch result.items.items }
{
    let mut patch = forking(head, slot, child, process, trap);
    let copy = SigRec {
        pid: head.next,
        pending: 0,
        handlers: signals.handlers,
    };
    patch.put(RecordId::Sig(child), AnyRec::Sig(copy));
    let exit = ExitRec {
        state: 1,
        value: child,
    };
    patch.put(RecordId::Exit(head.next), AnyRec::Exit(exit));
    patch
}

// A slot that is free.
fn free_process() -> ProcRec
    ensures { result ≡ free_process }
{
    ProcRec {
        state: FREE,
        pid: 0,
        parent: 0,
        call: 0,
        done: 0,
        code_pages: 0,
        data_pages: 0,
        brk: 0,
        procedure: 0,
        mask: 0,
        flags: 0,
        status: 0,
        descs: [0; 8],
        regs: Regs::new(),
        pc: 0,
        handler_save: blank_bank(),
        crash_save: blank_bank(),
    }
}

/// What takes a child that has ended for the live process of a slot that waits for it: the trap `trap` is done, the
/// process is answered with the child's pid, and the slot `place` of the child is free.
#[tactic(auto, unfolding(crate::specs::Patches::wait_items))]
pub fn take_child(
    head: &HeadRec,
    slot: u32,
    process: &ProcRec,
    place: u32,
    pid: u32,
    trap: u32,
) -> Patch
    requires head { FitsHead head.now }
    requires slot { slot < 16 }
    requires place { place < 16 }
    requires apart { slot ≢ place }
    requires process { FitsProc process.now }
    requires live { is_live process.now ≡ true }
    ensures items { result.items.items ≡ wait_items head.now slot process.now place pid trap }
    ensures patch { IsPatch result.items.items }
{
    let mut patch = served(head, trap, slot, &answered(process, pid));
    patch.put(RecordId::Proc(place), AnyRec::Proc(free_process()));
    patch
}

/// What saves registers and pc of the live process of a slot as the trap `trap` ends. The process is outside a call,
/// and is then the last one that had a trap.
#[tactic(auto, unfolding(crate::specs::Patches::saved_items))]
pub fn save_bank<V: RecordView>(view: &V, slot: u32, bank: &Bank, trap: u32) -> Patch
    requires head { is_some (V.records view.now).head ≡ true }
    requires slot { slot < 16 }
    requires live { is_live_one ((V.records view.now).procs slot) ≡ true }
    ensures items { IsSaving (V.records view.now) slot bank.now trap result.items.items }
    ensures patch { IsPatch result.items.items }
{
    let head = view.head().unwrap();
    let process = ProcRec {
        pc: bank.pc,
        regs: bank.regs,
        ..view.proc(slot).unwrap()
    };
    served(&head, trap, slot, &process)
}

/// What the next signal does to the live process of a slot, to which one can go: handler 1 drops it, handler 0 ends the
/// process, and another one begins, with the registers and the pc saved. A call in progress ends then with the bytes
/// done, or with minus EINTR where there are none. The trap `trap` is done, and the process is the last one that had
/// one.
#[tactic(auto, unfolding(crate::specs::Patches::signal_items))]
pub fn take_signal<V: RecordView>(view: &V, slot: u32, trap: u32) -> Patch
    requires head { is_some (V.records view.now).head ≡ true }
    requires slot { slot < 16 }
    requires live { is_live_one ((V.records view.now).procs slot) ≡ true }
    requires signal { HasSignal (V.records view.now) slot }
    ensures items { IsSignalling (V.records view.now) slot trap result.items.items }
    ensures patch { IsPatch result.items.items }
{
    let head = view.head().unwrap();
    let process = view.proc(slot).unwrap();
    let signals = view.sig(slot).unwrap();
    let signal = next_signal(&process, &signals).unwrap();
    let handler = signals.handlers[signal as usize - 1];
    if handler == 0 {
        return ending(&head, slot, &process, KILLED + signal, trap);
    }
    let mut patch = served(&head, trap, slot, &signalled(&process, signal, handler));
    patch.put(
        RecordId::Sig(slot),
        AnyRec::Sig(without_signal(&signals, signal)),
    );
    patch
}
