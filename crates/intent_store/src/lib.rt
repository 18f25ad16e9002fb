//! The records of a kernel that runs, and the stores that change them. Records that belong together are set by an intent:
//! it is spelled beside the records, opened by one store, carried out and closed, so that after a panic at any store all
//! of them are set or none.
#![tactic(auto)]

mod commit;
mod copying;
mod frames;
mod live;
mod opening;
mod payload;

pub use live::{Live, live_records};
