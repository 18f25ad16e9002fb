//! The memory of a process as a kernel sees it: bytes at the addresses of the process.
#![tactic(auto)]

mod access;
mod preparing;
mod putting;
mod ranges;
mod spaces;

pub use frame_table::{page_frame, pages, region};
pub use ow_base::{Efault, Rights};
pub use putting::{put_user, put_word};
pub use ranges::{can_read, can_write, user_bytes};
pub use record_layouts::{ProcRec, RecordView, Writer};
pub use spaces::{copy_space, grow};
