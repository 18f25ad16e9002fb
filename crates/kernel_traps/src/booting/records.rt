//! The records that a kernel boots with.
ghost use Rattle.std.specs.Prelude.{◌≡◌, ◌<◌, ◌≤◌, Some, None, IfSome, IfNone, length, slice_get};
ghost use Rattle.ow_base.specs.World.{page_count};
ghost use Rattle.record_layouts.specs.Head.{FitsHead};
ghost use Rattle.record_layouts.specs.Proc.{FitsProc};
ghost use Rattle.record_layouts.specs.Sig.{FitsSig};
ghost use Rattle.record_layouts.specs.Desc.{FitsDesc};
ghost use Rattle.record_layouts.specs.Exit.{FitsExit};
ghost use Rattle.record_layouts.specs.Term.{FitsTerm};
ghost use Rattle.record_layouts.specs.Patch.{FitsAny, IsOfKind};
ghost use Rattle.record_layouts.specs.Places.{IsRecordId};
ghost use Rattle.kernel_traps.specs.Boot.{IsBootable, IsLoadable, program_in};
ghost use Rattle.kernel_traps.specs.BootRecords.{booted_description, booted_exit, booted_head, booted_process, booted_record, booted_signals, silent_record, started_record as record_of_start};

use kernel_builder::{
    blank_bank, blank_row, empty_entry, free_process, no_signals, unused_description, unused_file,
};
use ow_base::{FRAME_WORDS, Load, Program, Regs};
use record_layouts::{AnyRec, DescRec, ExitRec, HeadRec, ProcRec, RecordId, SigRec, TermRec};

// The words of a page.
const PAGE_LENGTH: usize = FRAME_WORDS as usize;

// The address of the code.
const CODE_START: u32 = 0x10000;

// The stack pointer that a program starts with, and its register.
const STACK_START: u32 = 0x7fff_fff0;

const STACK_POINTER: u32 = 2;

/// How many pages so many words need.
pub(crate) fn pages_for(words: &[u32]) -> u32
    requires { length words.now ≤ 65536 }
    ensures { result ≡ page_count words.now }
{
    words.len().div_ceil(PAGE_LENGTH) as u32
}

/// The program that starts in a slot.
#[tactic(auto, unfolding(crate::specs::Boot::program_in))]
pub(crate) fn program_at(load: &Load, slot: u32) -> Option<&Program>
    requires { IsBootable load.now }
    ensures some { IfSome result (λ program. program_in load.now slot ≡ Some program.now) }
    ensures loadable { IfSome result (λ program. IsLoadable program.now) }
    ensures none { IfNone result (program_in load.now slot ≡ None) }
{
    let start = load.starts.items().get(slot as usize)?;
    Some(&load.programs.items()[start.program as usize])
}

fn head_record(load: &Load) -> HeadRec
    requires { IsBootable load.now }
    ensures is { result ≡ booted_head load.now }
    ensures fits { FitsHead result }
{
    HeadRec {
        layout: 1,
        served: 0,
        last: 0,
        next: load.starts.items().len() as u32 + 1,
        hand: 0,
    }
}

// The process of a program that starts in a slot: it is in user mode where its code begins, and its descriptors 0, 1 and
// 2 are the description of the same number as the slot.
fn started_record(slot: u32, program: &Program) -> ProcRec
    requires slot { slot < 16 }
    requires program { IsLoadable program.now }
    ensures is { result ≡ record_of_start slot program.now }
    ensures fits { FitsProc result }
{
    let mut regs = Regs::new();
    regs.set(STACK_POINTER, STACK_START);
    let description = slot + 1;
    ProcRec {
        state: 1,
        pid: slot + 1,
        parent: 0,
        call: 0,
        done: 0,
        code_pages: pages_for(program.code.items()),
        data_pages: pages_for(program.values.items()),
        brk: 0,
        procedure: 0,
        mask: 0,
        flags: 0,
        status: 0,
        descs: [description, description, description, 0, 0, 0, 0, 0],
        regs,
        pc: CODE_START,
        handler_save: blank_bank(),
        crash_save: blank_bank(),
    }
}

// The process of a slot, if one starts in it.
#[tactic(auto, unfolding(crate::specs::BootRecords::booted_process))]
fn process_record(load: &Load, slot: u32) -> ProcRec
    requires load { IsBootable load.now }
    requires slot { slot < 16 }
    ensures is { result ≡ booted_process load.now slot }
    ensures fits { FitsProc result }
{
    match program_at(load, slot) {
        Some(program) => started_record(slot, program),
        None => free_process(),
    }
}

// The signals of a slot: none is pending, and there is no handler.
#[tactic(auto, unfolding(crate::specs::BootRecords::booted_signals))]
fn signal_record(load: &Load, slot: u32) -> SigRec
    requires load { IsBootable load.now }
    requires slot { slot < 16 }
    ensures is { result ≡ booted_signals load.now slot }
    ensures fits { FitsSig result }
{
    let is_started = (slot as usize) < load.starts.items().len();
    no_signals(if is_started { slot + 1 } else { 0 })
}

// The description of a start, which is open on its terminal, to read and to write.
#[tactic(auto, unfolding(crate::specs::BootRecords::booted_description))]
fn description_record(load: &Load, index: u32) -> DescRec
    requires { IsBootable load.now }
    ensures is { result ≡ booted_description load.now index }
    ensures fits { FitsDesc result }
{
    match load.starts.items().get(index as usize) {
        Some(start) => DescRec {
            object: 2,
            index: start.tty,
            mode: 3,
            offset: 0,
        },
        None => unused_description(),
    }
}

// What has become of a pid: those of the starts are live, each in its slot.
#[tactic(auto, unfolding(crate::specs::BootRecords::booted_exit))]
fn exit_record(load: &Load, pid: u32) -> ExitRec
    requires load { IsBootable load.now }
    requires pid { 1 ≤ pid }
    ensures is { result ≡ booted_exit load.now pid }
    ensures fits { FitsExit result }
{
    if pid as usize <= load.starts.items().len() {
        ExitRec {
            state: 1,
            value: pid - 1,
        }
    } else {
        ExitRec { state: 0, value: 0 }
    }
}

// A terminal on which nothing is written.
fn silent_terminal(tty: u32) -> TermRec
    requires { tty < 2 }
    ensures is { result ≡ silent_record tty }
    ensures fits { FitsTerm result }
{
    TermRec {
        tty,
        written: 0,
        last: 0,
        consumed: 0,
        top: 0,
        row: 0,
        col: 0,
        base: 0,
    }
}

/// The record that a new kernel begins with, by its id.
pub(crate) fn boot_record(load: &Load, id: RecordId) -> AnyRec
    requires load { IsBootable load.now }
    requires id { IsRecordId id }
    ensures is { result ≡ booted_record load.now id }
    ensures kind { IsOfKind id result }
    ensures fits { FitsAny result }
{
    match id {
        RecordId::Head => AnyRec::Head(head_record(load)),
        RecordId::Proc(slot) => AnyRec::Proc(process_record(load, slot)),
        RecordId::Sig(slot) => AnyRec::Sig(signal_record(load, slot)),
        RecordId::Desc(index) => AnyRec::Desc(description_record(load, index)),
        RecordId::File(_) => AnyRec::File(unused_file()),
        RecordId::Cache(_) => AnyRec::Cache(empty_entry()),
        RecordId::Term(tty) => AnyRec::Term(silent_terminal(tty)),
        RecordId::Row(place) => AnyRec::Row(blank_row(place)),
        RecordId::Exit(pid) => AnyRec::Exit(exit_record(load, pid)),
    }
}
