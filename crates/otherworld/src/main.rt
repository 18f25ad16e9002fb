//! Otherworld: a small Unix on a simulated RV32I machine, proved from the bytes that come in to those that
//! go out.
#![tactic(auto)]

mod arming;
mod laws;
mod rows;
mod top;

pub use laws::{built_worlds_alone_run, one_run};
use ow_base::{StdSink, StdSource};
use ow_plant::Plant;
pub use rows::{
    exit_seven_runs, hi_has_one_answer, hi_runs, refusals_are_spelled, rows_are_refused,
    rows_are_worlds, three_hi_runs,
};
use std::env::args;
use std::io;
use std::process::ExitCode;
pub use top::{Status, otherworld};
pub use world_file::Why;

#[cfg(test)]
mod tests;

/// The arguments behind the program's name.
fn words_of(rt: &HostRuntime) -> io::Result<Vec<String>> {
    let mut words = Vec::new(rt.alloc());
    for word in args(rt)?.skip(1) {
        words.push(word)?;
    }
    Ok(words)
}

/// Calls the program over standard input and output. Where there is no memory for the words it writes
/// nothing; words that are no text are no command.
fn main(rt: HostRuntime) -> ExitCode {
    let words = match words_of(&rt) {
        Ok(words) => words,
        Err(error) if error.kind() == io::ErrorKind::OutOfMemory => {
            return ExitCode::from(Status::Memory.code());
        }
        Err(_) => Vec::new(rt.alloc()),
    };
    let mut source = StdSource::new(rt.stdin());
    let mut sink = StdSink::new(rt.stdout());
    let mut plant = Plant::new(rt.alloc());
    let status = otherworld(
        rt.alloc(),
        words.as_slice(),
        &mut source,
        &mut sink,
        &mut plant,
    );
    ExitCode::from(status.code())
}
