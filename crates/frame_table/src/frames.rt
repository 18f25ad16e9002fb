//! Which frame of memory a page of a process is.

ghost use Rattle.std.specs.Prelude.{◌≡◌, ◌<◌, ◌^◌, Some, None, if◌then◌else◌};
ghost use Rattle.record_layouts.specs.Left.{has_tables};
ghost use Rattle.record_layouts.specs.Pages.{claim_of, entry_for, frame_of, is_linked, leaf_frame, owned, page_frame_of};
ghost use Rattle.record_layouts.specs.Proc.{FitsProc};

use crate::regions::region;
use ow_base::Rights;
use record_layouts::{FIRST_TABLE, ProcRec, RecordView, TABLES_OF_SLOT};
use sv32_tables::leaf;

// The pages that one table of the last level speaks of.
const TABLE_PAGES: u32 = 1024;

// What one frame more counts in an entry of a table.
const FRAME_UNIT: u32 = 1024;

// The flags of an entry that names a table: V alone.
const POINTER_FLAGS: u32 = 1;

/// The word that names a page of a slot as the owner of a frame.
pub fn claim_word(slot: u32, page: u32) -> u32
    requires slot { slot < 16 }
    requires page { page < 2 ^ 20 }
    ensures { result ≡ claim_of slot page }
{
    (slot + 1) * 0x10_0000 + page
}

/// The frame of a page of the process in a slot. `None` exactly where the slot's record does not decode, or its regions
/// do not hold the page, or tables and owner word do not give one frame.
#[tactic(auto, unfolding(record_layouts::specs::Pages::page_frame_of))]
pub fn page_frame<V: RecordView>(view: &V, slot: u32, page: u32) -> Option<u32>
    requires slot { slot < 16 }
    requires page { page < 2 ^ 20 }
    ensures { result ≡ page_frame_of (V.records view.now) slot page }
{
    let rec = view.proc(slot)?;
    frame_of_page(view, slot, &rec, page)
}

/// The frame of a page as `page_frame` tells it, for a caller that has read the record of the slot.
#[tactic(auto, unfolding(record_layouts::specs::Pages::frame_of))]
pub fn frame_of_page<V: RecordView>(view: &V, slot: u32, rec: &ProcRec, page: u32) -> Option<u32>
    requires slot { slot < 16 }
    requires fits { FitsProc rec.now }
    requires page { page < 2 ^ 20 }
    ensures { result ≡ frame_of (V.records view.now) slot rec.now page }
{
    let rights = region(rec, page)?;
    let entry = entry_for(view, slot, page)?;
    let frame = leaf_frame(entry, rights)?;
    if is_owned(view, slot, page, frame) {
        Some(frame)
    } else {
        None
    }
}

// The entry of the last level for a page.
#[tactic(auto, unfolding(record_layouts::specs::Pages::entry_for))]
fn entry_for<V: RecordView>(view: &V, slot: u32, page: u32) -> Option<u32>
    requires slot { slot < 16 }
    ensures { result ≡ entry_for (V.records view.now) slot page }
{
    let place = page / TABLE_PAGES;
    let table = match place {
        0 => 1,
        511 => 2,
        _ => return None,
    };
    if is_linked(view, slot, table, place) {
        Some(view.table_word(slot, table, page % TABLE_PAGES))
    } else {
        None
    }
}

/// The root of a slot leads to its low table and to its high one.
pub fn has_tables<V: RecordView>(view: &V, slot: u32) -> bool
    requires { slot < 16 }
    ensures { result ≡ has_tables (V.records view.now) slot }
{
    is_linked(view, slot, 1, 0) && is_linked(view, slot, 2, 511)
}

// The root has the pointer to a table at a place.
fn is_linked<V: RecordView>(view: &V, slot: u32, table: u32, place: u32) -> bool
    requires slot { slot < 16 }
    requires table { table < 3 }
    requires place { place < 1024 }
    ensures { result ≡ is_linked (V.records view.now) slot table place }
{
    let root = view.table_word(slot, 0, place);
    let frame = view.area_base() + FIRST_TABLE + TABLES_OF_SLOT * slot + table;
    root % FRAME_UNIT == POINTER_FLAGS && root / FRAME_UNIT == frame
}

// The frame that an entry gives where it is exactly the leaf of these rights.
fn leaf_frame(entry: u32, rights: Rights) -> Option<u32>
    ensures { result ≡ leaf_frame entry rights }
{
    let frame = entry / FRAME_UNIT;
    if entry == leaf(frame, rights) {
        Some(frame)
    } else {
        None
    }
}

// The frame is a user frame, and its owner is this page of the slot.
fn is_owned<V: RecordView>(view: &V, slot: u32, page: u32, frame: u32) -> bool
    requires slot { slot < 16 }
    requires page { page < 2 ^ 20 }
    ensures { owned (V.records view.now) slot page (Some frame) ≡ (if result then Some frame else None) }
{
    match frame.checked_sub(view.pool_base()) {
        Some(number) => view.owner(number) == claim_word(slot, page),
        None => false,
    }
}
