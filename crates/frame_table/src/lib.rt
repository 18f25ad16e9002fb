//! The pages of a process and the frame of each, by the records of a kernel: one that runs or one that is dead.
#![tactic(auto)]

mod frames;
mod kept_laws;
mod laws;
mod pool;
mod regions;

pub use frames::{claim_word, frame_of_page, has_tables, page_frame};
pub use kept_laws::{
    kept_frames_are_free_as_before, kept_pages_have_their_bytes, uncounted_stores_change_no_page,
    uncounted_words_move_no_page,
};
pub use laws::{
    frames_are_free_or_pages, frames_lie_apart, mapped_pages_have_frames, pages_are_counted,
    tables_lead_to_pages,
};
pub use ow_base::Rights;
pub use pool::{free_frames, next_free, nth_free};
pub use record_layouts::{ProcRec, RecordView};
pub use regions::{pages, pages_of_all, region};
