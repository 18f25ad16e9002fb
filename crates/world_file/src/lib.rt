//! Worlds, read from their texts.
#![tactic(auto)]

mod key;
mod line;
mod reader;
mod reasons;
mod run_log;
mod so_far;
mod why;

pub use reader::{
    WorldFault, each_text_is_answered, one_refusal, one_world, read_world, worlds_are_read,
};
pub use run_log::RunLog;
pub use why::Why;
