//! One user instruction of RV32I 2.1 at a time (The RISC-V Instruction Set Manual, Volume I, chapter 2), over
//! any space of addresses.
#![tactic(auto)]

mod action;
mod alignment;
mod computation;
mod space;
mod stepping;

pub use ow_base::{Fault, Regs, Width};
pub use space::Space;
pub use stepping::{StepEnd, step};
