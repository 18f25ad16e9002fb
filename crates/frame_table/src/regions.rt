//! Which pages a process has, by its record, and how many all have.

ghost use Rattle.std.specs.Prelude.{◌≡◌, ◌<◌, ◌≤◌, ◌^◌};
ghost use Rattle.record_layouts.specs.Pages.{heap_pages, page_total, region_of};
ghost use Rattle.record_layouts.specs.Proc.{FitsProc};
ghost use Rattle.frame_table.specs.Counts.{pages_of_all};

use ow_base::Rights;
use record_layouts::{CODE_PAGE, ProcRec, RecordView, SLOTS, STACK_PAGE, STACK_PAGES};

// The bytes of a page.
const PAGE: u32 = 4096;

// The pages that the heap has: a page of which only a part lies below the break counts whole.
fn heap_pages(rec: &ProcRec) -> u32
    requires { FitsProc rec.now }
    ensures value { result ≡ heap_pages rec.now }
    ensures fits { result ≤ 1024 }
{
    rec.brk.div_ceil(PAGE)
}

/// How many pages the process has, its stack included. A record in state 0 or 3 has none.
#[tactic(auto, unfolding(record_layouts::specs::Pages::page_total))]
pub fn pages(rec: &ProcRec) -> u32
    requires { FitsProc rec.now }
    ensures { result ≡ page_total rec.now }
{
    if rec.is_live() {
        rec.code_pages + rec.data_pages + heap_pages(rec) + STACK_PAGES
    } else {
        0
    }
}

/// How many pages all live processes have, their stacks included.
#[tactic(auto, using(crate::proofs::Users::none_before, crate::proofs::Users::one_slot_more, crate::proofs::Users::few_of))]
pub fn pages_of_all<V: RecordView>(view: &V) -> u32
    ensures { result ≡ pages_of_all (V.records view.now) 16 }
{
    let mut total = 0;
    for slot in 0..SLOTS {
        if let Some(rec) = view.live_proc(slot) {
            total += pages(&rec);
        }
    }
    total
}

/// What the process may do with a page, by the page's number (its address / 4096). `None` exactly where its regions do
/// not hold the page: they are the code, the data and the heap behind each other from page 16 on, and four pages of
/// stack that end at 0x80000000. A record in state 0 or 3 has none.
#[tactic(auto, unfolding(record_layouts::specs::Pages::region_of))]
pub fn region(rec: &ProcRec, page: u32) -> Option<Rights>
    requires fits { FitsProc rec.now }
    requires page { page < 2 ^ 20 }
    ensures { result ≡ region_of rec.now page }
{
    if !rec.is_live() {
        return None;
    }
    let values_start = CODE_PAGE + rec.code_pages;
    let values_end = values_start + rec.data_pages + heap_pages(rec);
    if (CODE_PAGE..values_start).contains(&page) {
        return Some(Rights::Code);
    }
    let is_of_values = (values_start..values_end).contains(&page)
        || (STACK_PAGE..STACK_PAGE + STACK_PAGES).contains(&page);
    if is_of_values {
        Some(Rights::Values)
    } else {
        None
    }
}
