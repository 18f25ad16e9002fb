//! What every crate of Otherworld speaks of: plain data, the world outside, and the definitions in `specs/`.
#![tactic(auto)]

mod fakes;
mod machine;
mod memory;
mod numerals;
mod outside;
mod seals;
mod sequence;
mod standard;
mod transfer;
mod worlds;

pub use fakes::{FixedSink, FixedSource, MemSink, MemSource};
pub use machine::{
    Access, AreaId, Bank, Came, Efault, Errno, FRAME_WORDS, Fault, Now, PageCause, Panicked, Phys,
    Regs, Rights, Shape, Width,
};
pub use memory::WordSource;
pub use numerals::{decimal, hex8};
pub use outside::{Failed, Sink, Source};
pub use seals::{is_sealed, one_change_breaks_a_seal, put_seal, seal};
pub use sequence::List;
pub use standard::{StdSink, StdSource};
pub use transfer::{ReadAllFault, put_all, put_escaped, put_number, read_all};
pub use worlds::{
    Damage, DamageKind, Ending, FileText, Hurt, KeyByte, Load, PanicLine, PanicRecord, Point,
    Program, Start, World,
};
