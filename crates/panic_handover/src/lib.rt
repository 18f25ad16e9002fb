//! What a kernel that panics leaves to the crash kernel: which trap broke and how it had begun, in the first words of
//! memory. The crash kernel believes none of them before it has tested them all.
#![tactic(auto)]

mod hand_over;

pub use hand_over::{HandOver, hand_overs_are_spelled_once};
pub use ow_base::{Bank, Came, Regs};
