//! The instructions of RV32I 2.1 (The RISC-V Instruction Set Manual, Volume I, chapter 2) and their words.
#![tactic(auto)]

mod decoding;
mod encoding;
mod fields;
mod instr;
mod laws;

pub use decoding::decode;
pub use encoding::encode;
pub use fields::{BranchOffset, Immediate, JumpOffset, Register, ShiftAmount, UpperImmediate};
pub use instr::Instr;
pub use laws::{others_are_illegal, rows_agree, rows_read_back};
