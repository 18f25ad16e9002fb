//! Memory: frames of 1,024 words in one numbering, and a split that lends the halves of two kernels at once,
//! the dead one's for reading and the other for writing.
//!
//! Frame 0 is the boot frame. Behind it lie the frames of half A, and behind them those of half B; each half has
//! 64 frames of a kernel's area, 64 cache frames and the user frames.
#![tactic(auto)]

mod frames;
mod lent;
mod whole;

pub use frames::Frames;
pub use lent::{DeadWords, OwnWords};
pub use whole::Memory;
