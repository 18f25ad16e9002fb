//! The machine that a kernel runs on: memory of frames, two terminals, a processor whose user mode sees
//! memory through page tables, counts of steps, traps and stores, and points at which stores are refused from then
//! on. A panic is entered where one was refused. It has no disk yet, and nothing is typed.
#![tactic(auto)]

mod dead_half;
mod dead_memory;
mod displays;
mod laws;
mod lent;
mod machine;
mod own_half;
mod past;
mod points;
mod refusal;
mod terminals;
mod user_memory;

pub use dead_half::Dead;
pub use dead_memory::DeadMemory;
pub use displays::Display;
pub use laws::{
    dead_words_stay, entered_panics_are_over, own_stores_are_stores, panics_come_in_their_traps,
    panics_hand_over, what_is_lent_is_given_back,
};
pub use lent::Lent;
pub use machine::Plant;
pub use ow_base::{
    AreaId, Bank, Came, Fault, KeyByte, Now, PanicRecord, Panicked, Point, Regs, Shape,
};
pub use own_half::{Own, OwnPlace};
pub use panic_handover::HandOver;
pub use refusal::Refusal;

/// How a turn in user mode ends: an instruction was made, the slice is over, or the instruction is a
/// call or has faulted.
#[derive(Clone, Copy, Debug, PartialEq, Eq)]
pub enum UserEnd {
    Next,
    Slice,
    Call,
    Fault(Fault),
}
