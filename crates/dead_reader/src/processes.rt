//! The process of a slot, and the first part of it that cannot be read.
ghost use Rattle.std.specs.Prelude.{◌≡◌, ℕ, ◌+◌, ◌^◌, ◌<◌, ◌≤◌, true, false, not, ◌↔◌, is_some, Some, None, Ok, IfSome, IfNone, IfOk, IfErr};
ghost use Rattle.record_layouts.specs.Decode.{decodes, is_number, pid_in, slot_by};
ghost use Rattle.record_layouts.specs.declared.places.RecordId.TheVariants.{Proc};
ghost use Rattle.record_layouts.specs.Least.{IsLeast, NonePasses};
ghost use Rattle.record_layouts.specs.Left.{IsFirstUnreadable, dead_proc, has_tables, is_record_of, lacks_frame};
ghost use Rattle.record_layouts.specs.declared.proc.ProcRec.{ProcRec};
ghost use Rattle.record_layouts.specs.Pages.{frame_of, is_live, is_mapped};
ghost use Rattle.record_layouts.specs.Proc.{FitsProc};
ghost use Rattle.dead_reader.specs.Left.{handed_of};
ghost use Rattle.dead_reader.specs.Processes.{IsDead, IsDecoded, IsUnreadable};

use crate::left::dead_process;
use frame_table::{frame_of_page, has_tables, pages};
use ow_plant::HandOver;
use record_layouts::{
    CODE_PAGE, DeadProc, PIDS_END, ProcRec, RecordId, RecordView, STACK_PAGE, STACK_PAGES,
};

// The index of a record by itself, and of the two words of the root by which its tables are found. Pages, which have
// their own numbers, begin above.
const RECORD: u32 = 0;

const ROOT: u32 = 1;

/// The first part of a process that cannot be read.
///
/// It is the head with index 0, or of the process in a slot its record with index 0, the words of its root that lead
/// to its tables with index 1, or a page with its number, which is never below 16.
#[derive(Clone, Copy, Debug, PartialEq, Eq)]
pub struct Unreadable {
    pub id: RecordId,
    pub index: u32,
}

impl Unreadable {
    // A part of the process in a slot.
    fn of_process(slot: u32, index: u32) -> Unreadable
        ensures id { result.id ≡ Proc slot }
        ensures index { result.index ≡ index }
    {
        Unreadable {
            id: RecordId::Proc(slot),
            index,
        }
    }
}

// The exit record of a pid has it as live in a slot.
fn is_live_in<V: RecordView>(view: &V, pid: u32, slot: u32) -> bool
    requires some { 1 ≤ pid }
    requires pid { pid ≤ 256 }
    ensures { result ≡ is_number (slot_by ((V.records view.now).exits pid)) slot }
{
    view.exit(pid)
        .is_some_and(|exit| exit.is_live() && exit.value == slot)
}

// The least pid that is live in a slot.
fn least_live_in<V: RecordView>(view: &V, slot: u32) -> Option<u32>
    ensures found { IfSome result (IsLeast (λ pid. is_number (slot_by ((V.records view.now).exits pid)) slot) 1 257) }
    ensures none { IfNone result (NonePasses (λ pid. is_number (slot_by ((V.records view.now).exits pid)) slot) 1 257) }
{
    for pid in 1..PIDS_END {
        if is_live_in(view, pid, slot) {
            return Some(pid);
        }
    }
    None
}

/// The pid that is live in a slot, the least where there are several.
pub(crate) fn pid_in<V: RecordView>(view: &V, slot: u32) -> Option<u32>
    ensures { result ≡ pid_in (V.records view.now) slot }
{
    least_live_in(view, slot)
}

// Of so many pages from one on, the first that has no frame.
fn first_without_frame<V: RecordView>(
    view: &V,
    slot: u32,
    rec: &ProcRec,
    first: u32,
    count: u32,
) -> Option<u32>
    requires slot { slot < 16 }
    requires fits { FitsProc rec.now }
    requires pages { first + count ≤ 2 ^ 20 }
    ensures found { IfSome result (IsLeast (λ page. not (is_some (frame_of (V.records view.now) slot rec.now page))) first (first + count)) }
    ensures none { IfNone result (NonePasses (λ page. not (is_some (frame_of (V.records view.now) slot rec.now page))) first (first + count)) }
{
    for page in first..first + count {
        if frame_of_page(view, slot, rec, page).is_none() {
            return Some(page);
        }
    }
    None
}

// The first page of a process that goes on which has no frame.
fn page_without_frame<V: RecordView>(view: &V, slot: u32, rec: &ProcRec) -> Option<u32>
    requires slot { slot < 16 }
    requires fits { FitsProc rec.now }
    requires live { is_live rec.now ≡ true }
    ensures lacks { IfSome result (λ page. lacks_frame (V.records view.now) slot page (Some rec.now) ≡ true) }
    ensures first { IfSome result (λ page. (lower : ℕ) → lower < page → lacks_frame (V.records view.now) slot lower (Some rec.now) ≡ false) }
    ensures none { IfNone result (has_tables (V.records view.now) slot ≡ true → is_mapped (V.records view.now) slot rec.now ≡ true) }
{
    let below_stack = pages(rec) - STACK_PAGES;
    match first_without_frame(view, slot, rec, CODE_PAGE, below_stack) {
        Some(page) => Some(page),
        None => first_without_frame(view, slot, rec, STACK_PAGE, STACK_PAGES),
    }
}

// The record of a slot, where it is that of a process of this pid which goes on.
fn record_of<V: RecordView>(view: &V, slot: u32, pid: u32) -> Option<ProcRec>
    requires slot { slot < 16 }
    ensures found { IfSome result (λ process. (V.records view.now).procs slot ≡ Some process) }
    ensures live { IfSome result (λ process. is_live process ≡ true) }
    ensures pid { IfSome result (λ process. process.pid ≡ pid) }
    ensures fits { IfSome result FitsProc }
    ensures none { IfNone result (is_record_of pid ((V.records view.now).procs slot) ≡ false) }
{
    let process = view.proc(slot)?;
    if process.is_live() && process.pid == pid {
        Some(process)
    } else {
        None
    }
}

/// The record of the process of this pid in a slot, if all its parts can be read, or the first that cannot.
pub(crate) fn read_process<V: RecordView>(
    view: &V,
    slot: u32,
    pid: u32,
) -> Result<ProcRec, Unreadable>
    requires slot { slot < 16 }
    ensures there { IfOk result (λ process. (V.records view.now).procs slot ≡ Some process) }
    ensures decodes { IfOk result (λ process. decodes (V.records view.now) slot pid process ≡ true) }
    ensures fits { IfOk result FitsProc }
    ensures first { IfErr result (λ unreadable. IsFirstUnreadable (V.records view.now) slot pid unreadable.id unreadable.index) }
{
    if view.head().is_none() {
        return Err(Unreadable {
            id: RecordId::Head,
            index: RECORD,
        });
    }
    let Some(process) = record_of(view, slot, pid) else {
        return Err(Unreadable::of_process(slot, RECORD));
    };
    if !has_tables(view, slot) {
        return Err(Unreadable::of_process(slot, ROOT));
    }
    match page_without_frame(view, slot, &process) {
        Some(page) => Err(Unreadable::of_process(slot, page)),
        None => Ok(process),
    }
}

/// The process of a slot as the panic left it, if an exit record is live there, or the first part of it that cannot be
/// read. It is told the pid that is live in the slot.
pub(crate) fn process_left<V: RecordView>(
    view: &V,
    handed: &Option<HandOver>,
    slot: u32,
    pid: Option<u32>,
) -> Result<Option<DeadProc>, Unreadable>
    requires slot { slot < 16 }
    requires pid { pid ≡ pid_in (V.records view.now) slot }
    ensures none { result ≡ Ok None ↔ pid_in (V.records view.now) slot ≡ None }
    ensures found { IfOk result (λ told. IfSome told (IsDead (V.records view.now) (handed_of handed.now) slot)) }
    ensures each { (process : ProcRec) → IsDecoded (V.records view.now) slot process
        → result ≡ Ok (Some (dead_proc (V.records view.now) (handed_of handed.now) slot process)) }
    ensures unreadable { IfErr result (IsUnreadable (V.records view.now) slot) }
{
    let Some(pid) = pid else {
        return Ok(None);
    };
    match read_process(view, slot, pid) {
        Ok(process) => Ok(Some(dead_process(view, handed, slot, &process))),
        Err(unreadable) => Err(unreadable),
    }
}
