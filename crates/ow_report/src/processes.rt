//! The lines of the processes.
ghost use Rattle.std.specs.Prelude.{◌≡◌, ◌-◌, ◌≤◌, OnErr, Some};
ghost use Rattle.ow_base.specs.Outside.{Rose, Writes};
ghost use Rattle.record_layouts.specs.Unix.Report.{process_line, process_lines};
ghost use Rattle.ow_report.specs.Agrees.{exits_of, next_pid_of};
ghost use Rattle.ow_report.specs.Writing.{exit_key, exit_number, status_word, IsExit};

use crate::lines::{Token, put_line, put_number_line};
use dead_reader::DeadView;
use ow_base::{Failed, Sink};
use ow_plant::Plant;
use record_layouts::RecordView;

/// The first status word of a signal. Those below are exit codes.
const SIGNAL: u32 = 0x100;

/// The first status word of a fault.
const FAULT: u32 = 0x200;

/// The first status word of a loss.
const LOST: u32 = 0x300;

/// How a process ended.
#[derive(Clone, Copy, Debug, PartialEq, Eq)]
enum Exit {
    Code(u32),
    Signal(u32),
    Fault(u32),
    Lost(u32),
}

impl Exit {
    /// What a status word says.
    fn of_status(status: u32) -> Exit
        ensures same { status_word result ≡ status }
        ensures fits { IsExit result }
    {
        match status {
            0..SIGNAL => Exit::Code(status),
            SIGNAL..FAULT => Exit::Signal(status - SIGNAL),
            FAULT..LOST => Exit::Fault(status - FAULT),
            _ => Exit::Lost(status - LOST),
        }
    }

    /// The word for how the process ended.
    fn key(self) -> &'static [u8]
        ensures { result.now ≡ exit_key self }
    {
        match self {
            Exit::Code(_) => b"code",
            Exit::Signal(_) => b"signal",
            Exit::Fault(_) => b"fault",
            Exit::Lost(_) => b"lost",
        }
    }

    /// The code, or the number of the signal, the fault or the loss.
    fn number(self) -> u32
        ensures { result ≡ exit_number self }
    {
        match self {
            Exit::Code(number) | Exit::Signal(number) | Exit::Fault(number) | Exit::Lost(number) =>
                number,
        }
    }
}

/// Writes how the process ended: a line of its pid and its exit.
fn put_exit<K: Sink>(sink: &mut K, pid: u32, exit: Exit) -> Result<(), Failed>
    requires { IsExit exit }
    ensures writes { Writes result (process_line pid (Some (status_word exit))) (K.written sink.old) (K.written sink.new) }
    ensures failed { OnErr result (Rose (K.faults sink.old) (K.faults sink.new)) }
    ensures never_falls { K.faults sink.old ≤ K.faults sink.new }
{
    let pid = Token::Number(u64::from(pid));
    let number = Token::Number(u64::from(exit.number()));
    put_line(sink, b"exit", &[pid, Token::Key(exit.key()), number])
}

/// Writes the line of a process: how it ended, or that it is live.
fn put_process<K: Sink>(sink: &mut K, pid: u32, ended: Option<u32>) -> Result<(), Failed>
    ensures writes { Writes result (process_line pid ended) (K.written sink.old) (K.written sink.new) }
    ensures failed { OnErr result (Rose (K.faults sink.old) (K.faults sink.new)) }
    ensures never_falls { K.faults sink.old ≤ K.faults sink.new }
{
    match ended {
        Some(status) => put_exit(sink, pid, Exit::of_status(status)),
        None => put_number_line(sink, b"live", pid),
    }
}

/// The pid that the next process would get. All below it have been given away.
fn next_pid(view: &DeadView<'_, Plant>) -> u32
    ensures pid { result ≡ next_pid_of view.now.memory.now }
    ensures some { 1 ≤ result }
    ensures most { result ≤ 257 }
{
    match view.head() {
        Some(head) => head.next,
        None => 1,
    }
}

/// The status word of a process that has ended.
fn exit_status(view: &DeadView<'_, Plant>, pid: u32) -> Option<u32>
    requires some { 1 ≤ pid }
    requires most { pid ≤ 256 }
    ensures { result ≡ exits_of view.now.memory.now pid }
{
    match view.exit(pid) {
        Some(exit) if exit.has_ended() => Some(exit.value),
        _ => None,
    }
}

/// Writes the lines of all processes that there have been, by their pids. They are read as those of a kernel that does
/// not run any more.
pub(crate) fn put_processes<K: Sink>(sink: &mut K, plant: &Plant) -> Result<(), Failed>
    ensures writes { Writes result (process_lines (exits_of plant.now) 1 (next_pid_of plant.now - 1)) (K.written sink.old) (K.written sink.new) }
    ensures failed { OnErr result (Rose (K.faults sink.old) (K.faults sink.new)) }
    ensures never_falls { K.faults sink.old ≤ K.faults sink.new }
{
    let view = DeadView::new(plant);
    let next = next_pid(&view);
    for pid in 1..next {
        match put_process(sink, pid, exit_status(&view, pid)) {
            Ok(()) => {}
            Err(Failed) => return Err(Failed),
        }
    }
    Ok(())
}
