//! The report of a run that has ended, read from the machine that it left and written to a sink.
#![tactic(auto)]

mod lines;
mod panics;
mod processes;
mod report;
mod terminals;
mod unused;

pub use report::write_report;
