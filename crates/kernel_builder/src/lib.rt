//! The builder of a kernel: it fills the frames of a new one, of whose words nothing is assumed, as a blueprint says.
#![tactic(auto)]

mod blank;
mod blueprint;
mod building;
mod setting;

pub use blank::{
    blank_bank, blank_row, empty_entry, free_process, no_signals, unused_description, unused_file,
};
pub use blueprint::{Blueprint, Holder, Placed};
pub use building::build_kernel;
