//! What the crates of tests share: a small memory in which they put records, and points at which machines refuse.
#![tactic(auto)]

mod points;
mod small_memory;

pub use points::point;
pub use small_memory::{
    AFTER, AREA_FRAMES, BEFORE, CACHE, DESC, EXIT, EXIT_5, FILE, HEAD, HIGH_2, LOW_2, MAP, OWNER_0,
    PROC, PROC_2, ROOT_2, ROW, ROW_0, SIG, SmallMemory, TERM, TERM_0, TERM_1, intent_of_5, sealed,
};
