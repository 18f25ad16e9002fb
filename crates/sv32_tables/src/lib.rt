//! The page tables of Sv32 (The RISC-V Instruction Set Manual, Volume II, "Sv32: Page-Based 32-bit
//! Virtual-Memory Systems"): where they lead, and the entries that a kernel puts into them.
#![tactic(auto)]

mod entry;
mod laws;
mod walking;

pub use entry::{leaf, pointer};
pub use laws::{leaf_is_read_back, nothing_is_mapped, pointer_is_read_back};
pub use ow_base::{Access, PageCause, Phys, Rights, WordSource};
pub use walking::{Reached, reach, walk};
