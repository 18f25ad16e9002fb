//! A process of the kernel: where it stands, its pages, its descriptors and the contexts saved for it.

ghost use Rattle.std.specs.Prelude.{◌≡◌, ◌≢◌, ℕ, ◌+◌, ◌^◌, ◌<◌, ◌≤◌, ◌↔◌, List, length, take, drop, slice_index, slice_set, EachIndex, IsTrue, IfSome, IfNone};
ghost use Rattle.record_layouts.specs.declared.proc.ProcRec.{ProcRec};
ghost use Rattle.record_layouts.specs.Pages.{has_ended, is_in_call, is_live, is_outside};
ghost use Rattle.record_layouts.specs.Proc.{heap_start, IsBlankBank, FitsLive, IsOver, FitsFree, FitsEnded, FitsProc, IsBankAt, IsFront, IsProc, proc_in};

use crate::spelling::{are_zero, is_status};
use ow_base::{Bank, Regs, is_sealed, put_seal};

// The word that begins the record of a process.
const KIND: u32 = 0x5052_4f43;

// The address above the last page that a heap can have.
const HEAP_END: u32 = 0x0040_0000;

// How many descriptions there are.
const DESCS: u32 = 32;

// A free slot.
const FREE: u32 = 0;

// A process outside a call.
pub(crate) const OUTSIDE: u32 = 1;

// A process in a call.
pub(crate) const IN_CALL: u32 = 2;

// A process that has ended.
const ENDED: u32 = 3;

/// What the kernel keeps of the process in a slot.
///
/// Fields that the state does not use are 0, but for the saved contexts and the crash mask of a process that
/// goes on, which hold any words where their flag is not set.
#[derive(Clone, Copy, Debug, PartialEq, Eq)]
pub struct ProcRec {
    /// 0 free, 1 outside a call, 2 in a call, 3 ended.
    pub state: u32,
    /// 1 to 256.
    pub pid: u32,
    /// The pid of the parent, 0 for none.
    pub parent: u32,
    /// The number of the call.
    pub call: u32,
    /// The bytes of the call that are done.
    pub done: u32,
    /// Pages of code, 1 to 64.
    pub code_pages: u32,
    /// Pages of data, at most 64.
    pub data_pages: u32,
    /// The break, in bytes above the heap's start.
    pub brk: u32,
    /// The address of the crash procedure, 0 for none.
    pub procedure: u32,
    /// The mask that the crash procedure was told.
    pub mask: u32,
    /// 1 where a handler runs, and 2 more where the crash procedure runs.
    pub flags: u32,
    /// How the process ended: its exit code, 0x100 and a signal, 0x200 and a cause, 0x300 and a mask.
    pub status: u32,
    /// The descriptors: 0 for none, else one more than the number of a description.
    pub descs: [u32; 8],
    /// The registers of the process.
    pub regs: Regs,
    /// The address of its next instruction.
    pub pc: u32,
    /// What was saved for the handler that runs.
    pub handler_save: Bank,
    /// What was saved for the crash procedure that runs.
    pub crash_save: Bank,
}

// All registers and the pc are 0.
fn is_blank_bank(bank: &Bank) -> bool
    ensures { IsTrue result ↔ IsBlankBank bank.now }
{
    are_zero(bank.regs.words(), 0, 31) && bank.pc == 0
}

// Puts the part in place of the words from `at` on.
fn put(words: &mut [u32], at: usize, part: &[u32])
    requires { at + length part.now ≤ length words.old }
    ensures part { take (length part.now) (drop at words.new) ≡ part.now }
    ensures before { take at words.new ≡ take at words.old }
    ensures behind { drop (at + length part.now) words.new ≡ drop (at + length part.now) words.old }
{
    words[at..at + part.len()].copy_from_slice(part);
}

// Puts the registers in place of the words from `at` on, and the pc behind them.
fn put_bank(words: &mut [u32], at: usize, bank: &Bank)
    requires { at + 32 ≤ length words.old }
    ensures bank { IsBankAt words.new at bank.now }
    ensures before { take at words.new ≡ take at words.old }
    ensures behind { drop (at + 32) words.new ≡ drop (at + 32) words.old }
{
    put(words, at, bank.regs.words());
    words[at + 31] = bank.pc;
}

// The registers that lie from word `at` on.
fn regs_at(words: &[u32], at: usize) -> Regs
    requires { at + 31 ≤ length words.now }
    ensures { result ≡ take 31 (drop at words.now) }
{
    let mut regs = [0; 31];
    regs.copy_from_slice(&words[at..at + 31]);
    Regs::from(regs)
}

// The descriptors that lie from word `at` on.
fn descs_at(words: &[u32], at: usize) -> [u32; 8]
    requires { at + 8 ≤ length words.now }
    ensures { result ≡ take 8 (drop at words.now) }
{
    let mut descs = [0; 8];
    descs.copy_from_slice(&words[at..at + 8]);
    descs
}

// The registers that lie from word `at` on, and the pc behind them.
fn bank_at(words: &[u32], at: usize) -> Bank
    requires { at + 32 ≤ length words.now }
    ensures { IsBankAt words.now at result }
{
    Bank {
        pc: words[at + 31],
        regs: regs_at(words, at),
    }
}

// The address where the heap begins.
fn heap_start(code_pages: u32, data_pages: u32) -> u32
    requires code_pages { code_pages ≤ 64 }
    requires data_pages { data_pages ≤ 64 }
    ensures { result ≡ heap_start code_pages data_pages }
{
    0x0001_0000 + 4096 * (code_pages + data_pages)
}

// Each is 0, or one more than the number of a description.
fn are_descs(descs: &[u32]) -> bool
    ensures { IsTrue result ↔ EachIndex descs.now (λ k. slice_index descs.now k ≤ 32) }
{
    descs.iter().all(|desc| *desc <= DESCS)
}

impl ProcRec {
    /// The process is outside a call.
    pub fn is_outside(&self) -> bool
        ensures { result ≡ is_outside self.now }
    {
        self.state == OUTSIDE
    }

    /// The process is in a call.
    pub fn is_in_call(&self) -> bool
        ensures { result ≡ is_in_call self.now }
    {
        self.state == IN_CALL
    }

    /// The process goes on: it is outside a call or in one.
    pub fn is_live(&self) -> bool
        ensures { result ≡ is_live self.now }
    {
        self.is_outside() || self.is_in_call()
    }

    /// The process has ended.
    pub fn has_ended(&self) -> bool
        ensures { result ≡ has_ended self.now }
    {
        self.state == ENDED
    }

    // Nothing is left but pid, parent and status.
    fn is_over(&self) -> bool
        ensures { IsTrue result ↔ IsOver self.now }
    {
        self.call == 0
            && self.done == 0
            && self.code_pages == 0
            && self.data_pages == 0
            && self.brk == 0
            && self.procedure == 0
            && self.mask == 0
            && self.flags == 0
            && are_zero(&self.descs, 0, 8)
            && are_zero(self.regs.words(), 0, 31)
            && self.pc == 0
            && is_blank_bank(&self.handler_save)
            && is_blank_bank(&self.crash_save)
    }

    // A free slot.
    fn fits_free(&self) -> bool
        ensures { IsTrue result ↔ FitsFree self.now }
    {
        self.is_over() && self.pid == 0 && self.parent == 0 && self.status == 0
    }

    // A process that has ended.
    fn fits_ended(&self) -> bool
        ensures { IsTrue result ↔ FitsEnded self.now }
    {
        self.is_over()
            && (1..=256).contains(&self.pid)
            && self.parent <= 256
            && is_status(self.status)
    }

    // A process that goes on, but for its call.
    fn fits_live(&self) -> bool
        ensures { IsTrue result ↔ FitsLive self.now }
    {
        (1..=256).contains(&self.pid)
            && self.parent <= 256
            && (1..=64).contains(&self.code_pages)
            && self.data_pages <= 64
            && self.brk <= HEAP_END - heap_start(self.code_pages, self.data_pages)
            && self.flags <= 3
            && self.status == 0
            && are_descs(&self.descs)
    }

    // Each field is in its range, and 0 where the state does not use it.
    fn fits(&self) -> bool
        ensures { IsTrue result ↔ FitsProc self.now }
    {
        match self.state {
            FREE => self.fits_free(),
            OUTSIDE => self.fits_live() && self.call == 0 && self.done == 0,
            IN_CALL => self.fits_live(),
            ENDED => self.fits_ended(),
            _ => false,
        }
    }

    /// The words of the record. Each field is in its range, and 0 where the state does not use it.
    pub fn to_words(&self) -> [u32; 128]
        requires { FitsProc self.now }
        ensures { IsProc result self.now }
    {
        let bank = Bank {
            pc: self.pc,
            regs: self.regs,
        };
        let mut words = [0; 128];
        put(&mut words, 0, &self.front());
        put(&mut words, 13, &self.descs);
        put_bank(&mut words, 21, &bank);
        put_bank(&mut words, 53, &self.handler_save);
        put_bank(&mut words, 85, &self.crash_save);
        put_seal(&mut words);
        words
    }

    // The words of the record before its descriptors.
    fn front(&self) -> [u32; 13]
        ensures { IsFront result self.now }
    {
        [
            KIND,
            self.state,
            self.pid,
            self.parent,
            self.call,
            self.done,
            self.code_pages,
            self.data_pages,
            self.brk,
            self.procedure,
            self.mask,
            self.flags,
            self.status,
        ]
    }

    /// The process whose record the words are. `None` comes where they are no record of a process.
    pub fn from_words(words: &[u32; 128]) -> Option<ProcRec>
        ensures found { IfSome result (λ process. IsProc words.now process) }
        ensures none { IfNone result ((process : ProcRec) → IsProc words.now process → ⊥) }
        ensures read { result ≡ proc_in words.now }
    {
        if words[0] != KIND || !are_zero(words, 117, 127) || !is_sealed(words) {
            return None;
        }
        let bank = bank_at(words, 21);
        let process = ProcRec {
            state: words[1],
            pid: words[2],
            parent: words[3],
            call: words[4],
            done: words[5],
            code_pages: words[6],
            data_pages: words[7],
            brk: words[8],
            procedure: words[9],
            mask: words[10],
            flags: words[11],
            status: words[12],
            descs: descs_at(words, 13),
            regs: bank.regs,
            pc: bank.pc,
            handler_save: bank_at(words, 53),
            crash_save: bank_at(words, 85),
        };
        if process.fits() { Some(process) } else { None }
    }
}

/// A law; the function does nothing. Words are the record of one process at most, a process has one record,
/// and with one word changed to another it is the record of no process.
pub const fn processes_are_spelled_once()
    ensures value { (words : List ℕ) (a b : ProcRec) → IsProc words a → IsProc words b → a ≡ b }
    ensures words { (some others : List ℕ) (process : ProcRec) → IsProc some process → IsProc others process → some ≡ others }
    ensures changed { (words : List ℕ) (process : ProcRec) → IsProc words process → (i value : ℕ) → i < 128 → value < 2 ^ 32
        → value ≢ slice_index words i → (other : ProcRec) → IsProc (slice_set words i value) other → ⊥ }
{}
