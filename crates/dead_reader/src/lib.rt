//! What a kernel that does not run any more has left, as another kernel reads it: its records, its processes as the
//! panic left them, and what of them cannot be read. No word is believed before it was tested.
#![tactic(auto)]

mod cached;
mod laws;
mod left;
mod losses;
mod pids;
mod processes;
mod terminals;
mod view;

pub use laws::{pages_lie_apart, unreadable_or_decoded};
pub use ow_plant::{DeadMemory, HandOver};
pub use processes::Unreadable;
pub use record_layouts::{DeadProc, RecordId, RecordView, WordSource};
pub use view::DeadView;
