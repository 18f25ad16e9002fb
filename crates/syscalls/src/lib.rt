//! The system calls: what the call of a process asks of the kernel. All is read from a view of records, and what is to
//! be done is answered as a service. The calls are exit, write on terminals, getpid, sbrk, fork, wait and yield.
#![tactic(auto)]

mod caller;
mod calls;
mod children;
mod laws;
mod service;

pub use calls::{enter_call, next_piece};
pub use laws::{
    calls_are_entered, calls_keep_descriptors, calls_keep_sound, pieces_go_on, sound_records_serve,
};
pub use ow_base::{Bank, Now};
pub use record_layouts::{Patch, RecordView};
pub use service::Service;
