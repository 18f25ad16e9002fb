//! A process in its trap, and what its record becomes there.

ghost use Rattle.std.specs.Prelude.{◌≡◌, ◌+◌, ◌<◌, ◌≤◌};
ghost use Rattle.ow_base.specs.Words.{minus};
ghost use Rattle.record_layouts.specs.Head.{FitsHead};
ghost use Rattle.record_layouts.specs.Patch.{IsPatch};
ghost use Rattle.record_layouts.specs.Proc.{FitsProc};
ghost use Rattle.syscalls.specs.Serving.{IsCaller};
ghost use Rattle.syscalls.specs.Planned.{answered_process, argument_of, break_of, grown_process, pages_more, staying_process, stopped_answer, items_of, waiting_process, written_process, yielded_process};

use ow_base::Errno;
use record_layouts::{AnyRec, CODE_PAGE, HeadRec, Patch, ProcRec, RecordId};

// The register a0.
const ARGUMENTS: u32 = 10;

// The bytes of a page.
const PAGE: u32 = 4096;

// A process outside a call, and one in a call.
const OUTSIDE: u32 = 1;

const IN_CALL: u32 = 2;

// The numbers of the calls that a process can be in: write and wait.
pub(crate) const WRITE: u32 = 2;

pub(crate) const WAIT: u32 = 10;

// A process in its trap: its record has the registers with which it made its call.
#[derive(Clone, Copy)]
pub(crate) struct Caller {
    pub(crate) slot: u32,
    pub(crate) process: ProcRec,
    pub(crate) head: HeadRec,
    pub(crate) trap: u32,
}

impl Caller {
    // An argument of the call, of three.
    pub(crate) fn argument(&self, index: u32) -> u32
        requires { index < 3 }
        ensures { result ≡ argument_of self.now.process index }
    {
        self.process.regs.get(ARGUMENTS + index)
    }

    // The trap ends, and the process becomes this.
    fn becomes(&self, process: ProcRec) -> Patch
        requires head { FitsHead self.now.head }
        requires slot { self.now.slot < 16 }
        requires process { FitsProc process }
        ensures items { result.items.items ≡ items_of self.now process }
        ensures patch { IsPatch result.items.items }
    {
        let head = HeadRec {
            served: self.trap,
            last: process.pid,
            ..self.head
        };
        let mut patch = Patch::new();
        patch.put(RecordId::Head, AnyRec::Head(head));
        patch.put(RecordId::Proc(self.slot), AnyRec::Proc(process));
        patch
    }

    // The trap is served, and the process is what it was.
    pub(crate) fn is_unchanged(&self) -> Patch
        requires { IsCaller self.now }
        ensures items { result.items.items ≡ items_of self.now self.now.process }
        ensures patch { IsPatch result.items.items }
    {
        self.becomes(self.process)
    }

    // The call is over and has no answer.
    pub(crate) fn goes_on(&self) -> Patch
        requires { IsCaller self.now }
        ensures items { result.items.items ≡ items_of self.now (yielded_process self.now.process) }
        ensures patch { IsPatch result.items.items }
    {
        self.becomes(ProcRec {
            state: OUTSIDE,
            call: 0,
            done: 0,
            pc: self.process.pc.wrapping_add(4),
            ..self.process
        })
    }

    // The call is answered.
    pub(crate) fn answers(&self, answer: u32) -> Patch
        requires { IsCaller self.now }
        ensures items { result.items.items ≡ items_of self.now (answered_process self.now.process answer) }
        ensures patch { IsPatch result.items.items }
    {
        let mut regs = self.process.regs;
        regs.set(ARGUMENTS, answer);
        let process = ProcRec {
            regs,
            ..self.process
        };
        Caller { process, ..*self }.goes_on()
    }

    // The call is answered by an error.
    pub(crate) fn fails(&self, error: Errno) -> Patch
        requires caller { IsCaller self.now }
        requires error { 1 ≤ error.0 }
        ensures items { result.items.items ≡ items_of self.now (answered_process self.now.process (minus error.0)) }
        ensures patch { IsPatch result.items.items }
    {
        self.answers(0u32.wrapping_sub(error.0))
    }

    // The address of the break.
    pub(crate) fn break_address(&self) -> u32
        requires { IsCaller self.now }
        ensures { result ≡ break_of self.now.process }
    {
        (CODE_PAGE + self.process.code_pages + self.process.data_pages) * PAGE + self.process.brk
    }

    // The pages that so many bytes of heap more take.
    pub(crate) fn pages_more(&self, bytes: u32) -> u32
        requires caller { IsCaller self.now }
        requires room { break_of self.now.process + bytes ≤ 0x400000 }
        ensures { result ≡ pages_more self.now.process bytes }
    {
        (self.process.brk + bytes).div_ceil(PAGE) - self.process.brk.div_ceil(PAGE)
    }

    // The heap has so many bytes more, and the call answers where the break was.
    pub(crate) fn has_grown(&self, bytes: u32) -> Patch
        requires caller { IsCaller self.now }
        requires room { break_of self.now.process + bytes ≤ 0x400000 }
        ensures items { result.items.items ≡ items_of self.now (grown_process self.now.process bytes) }
        ensures patch { IsPatch result.items.items }
    {
        let process = ProcRec {
            brk: self.process.brk + bytes,
            ..self.process
        };
        Caller { process, ..*self }.answers(self.break_address())
    }

    // The process stays in its write, of which so many bytes are done.
    fn stays(&self, done: u32) -> Patch
        requires { IsCaller self.now }
        ensures items { result.items.items ≡ items_of self.now (staying_process self.now.process done) }
        ensures patch { IsPatch result.items.items }
    {
        self.becomes(ProcRec {
            state: IN_CALL,
            call: WRITE,
            done,
            ..self.process
        })
    }

    // The process waits for a child.
    pub(crate) fn waits(&self) -> Patch
        requires { IsCaller self.now }
        ensures items { result.items.items ≡ items_of self.now (waiting_process self.now.process) }
        ensures patch { IsPatch result.items.items }
    {
        self.becomes(ProcRec {
            state: IN_CALL,
            call: WAIT,
            done: 0,
            ..self.process
        })
    }

    // A piece of a write is done, and with it so many bytes of all: the last piece answers.
    pub(crate) fn has_written(&self, done: u32) -> Patch
        requires { IsCaller self.now }
        ensures items { result.items.items ≡ items_of self.now
            (written_process self.now.process (argument_of self.now.process 2) done) }
        ensures patch { IsPatch result.items.items }
    {
        let count = self.argument(2);
        if done == count {
            self.answers(count)
        } else {
            self.stays(done)
        }
    }

    // A piece is stopped by an error: the call answers the bytes done, or the error where there are none.
    pub(crate) fn is_stopped(&self, done: u32, error: Errno) -> Patch
        requires caller { IsCaller self.now }
        requires error { 1 ≤ error.0 }
        ensures items { result.items.items ≡ items_of self.now
            (answered_process self.now.process (stopped_answer done error.0)) }
        ensures patch { IsPatch result.items.items }
    {
        if done == 0 {
            self.fails(error)
        } else {
            self.answers(done)
        }
    }
}
