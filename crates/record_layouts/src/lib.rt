//! The records of the kernel: which words of memory stand for which value, and back. Each value has one
//! spelling, and a record of which one word is changed is no record any more. Where in an area each record lies, and
//! the words of an area while an intent to change some of them is open, are told here too. The definitions of the
//! Unix stand in `specs/`.
#![tactic(auto)]

mod area_view;
mod cache;
mod dead_proc;
mod desc;
mod exit;
mod fates;
mod file;
mod head;
mod intent;
mod layout;
mod left_laws;
mod memory_map;
mod overlay;
mod overlay_laws;
mod packing;
mod panic_laws;
mod patch;
mod places;
mod proc;
mod row;
mod sig;
mod spelling;
mod term;
mod traps;
mod view;
mod writer;

pub use area_view::AreaView;
pub use cache::{CacheRec, cache_entries_are_spelled_once};
pub use dead_proc::DeadProc;
pub use desc::{DescRec, descriptions_are_spelled_once};
pub use exit::{ExitRec, exits_are_spelled_once};
pub use fates::Fate;
pub use file::{FileRec, files_are_spelled_once};
pub use head::{HeadRec, heads_are_spelled_once};
pub use intent::{Change, GATE, Gate, INTENT_KIND, PAYLOAD, SEAL, Span};
pub use layout::{
    AREA_FRAMES, CACHE_ENTRIES, CACHE_OWNERS, CODE_PAGE, FIRST_TABLE, KERNEL_FRAMES, OWNERS,
    PIDS_END, ROWS, SLOTS, STACK_PAGE, STACK_PAGES, TABLES_OF_SLOT,
};
pub use left_laws::{
    alike_images_say_the_same, left_processes_are_of_the_unix, whole_images_have_no_wounds,
};
pub use memory_map::MemoryMap;
pub use overlay::{change_at, gate, open_end, overlaid};
pub use overlay_laws::{intents_are_read, other_words_stay, the_block_decides};
pub use ow_base::WordSource;
pub use panic_laws::{
    calls_are_undone, closing_traps_are_repeated, due_panics_come, live_processes_have_fates,
    only_processes_change, outside_goes_on, panics_are_told_as_listed, untouched_processes_survive,
};
pub use patch::{AnyRec, Patch, PatchItem, PatchPart, PatchView, RecordRef};
pub use places::{RecordId, address, records_lie_apart};
pub use proc::{ProcRec, processes_are_spelled_once};
pub use row::{RowRec, rows_are_spelled_once};
pub use sig::{SigRec, signals_are_spelled_once};
pub use term::{TermRec, terminals_are_spelled_once};
pub use traps::{Trap, turns_are_traps};
pub use view::RecordView;
pub use writer::Writer;
