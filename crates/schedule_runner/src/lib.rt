//! The run of a world: the kernel boots and makes turn after turn, until no process is live or the steps come to the
//! budget. All that it knows it learns from the calls of the kernel and from the machine.
#![tactic(auto)]

mod revival_laws;
mod reviving;
mod runner;
mod serving;

pub use revival_laws::{entered_panics_are_broken, revived_plants_are_of_abort};
pub use reviving::revive;
pub use runner::run;
