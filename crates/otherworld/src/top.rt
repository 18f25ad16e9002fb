//! The top call: it reads a world, runs it and writes the report, or says why not.

ghost use Rattle.std.specs.Prelude.{◌≡◌, ◌≤◌, ◌<◌, ◌+◌, List, ℕ, false, true, IfOk, IfErr, OnErr};
ghost use Rattle.ow_base.specs.Outside.{Rose, Writes};
ghost use Rattle.ow_base.specs.World.{IsWorld};
ghost use Rattle.ow_base.specs.declared.worlds.Ending.{Ending};
ghost use Rattle.world_file.specs.WorldRefusals.{IsBuilt};
ghost use Rattle.otherworld.specs.Arming.{IsArmedFor};
ghost use Rattle.otherworld.specs.Top.{unread_status, is_run as is_run_alone, refusal_text, bad_world_text, status_of as status_at, Intends, IsSaid, IsRead, IsReported, Answers};

use crate::arming::arm_for;
use kernel_traps::worlds_can_boot;
use ow_base::{Ending, Failed, ReadAllFault, Sink, Source, World, put_all, put_number, read_all};
use ow_plant::Plant;
use ow_report::write_report;
use schedule_runner::run;
use std::alloc::{AllocError, Global};
use world_file::{RunLog, Why, WorldFault, read_world};

/// The most bytes that a world may have.
const MOST_BYTES: usize = 1_048_576;

/// What a call of the program comes to.
///
/// Each status has the number that the process ends with, and a text that goes to the sink.
#[derive(Clone, Copy, Debug, PartialEq, Eq)]
pub enum Status {
    /// The run came to its end: no process is live.
    Done,
    /// The words are no command.
    Usage,
    /// The input is no world, at this line for this reason.
    BadWorld { line: u32, why: Why },
    /// The source failed.
    ReadFault,
    /// The sink failed.
    WriteFault,
    /// Memory ran out before the run began.
    Memory,
    /// The run came to its budget of steps with a process live.
    Budget,
    /// A resurrection was broken.
    Restarted,
}

impl Status {
    ghost use Rattle.std.specs.Prelude.{◌≡◌};
    ghost use Rattle.otherworld.specs.Top.{code_of};

    /// The number that the process ends with.
    pub fn code(self) -> u8
        ensures { result ≡ code_of self }
    {
        match self {
            Status::Done => 0,
            Status::Usage => 1,
            Status::BadWorld { .. } => 2,
            Status::ReadFault => 3,
            Status::WriteFault => 4,
            Status::Memory => 5,
            Status::Budget => 6,
            Status::Restarted => 7,
        }
    }
}

/// The words are `run` alone.
fn is_run(words: &[String]) -> bool
    ensures { result ≡ is_run_alone words.now }
{
    match words {
        [word] => word.as_str() == "run",
        _ => false,
    }
}

/// The status of a run that ended so.
fn status_of(ending: Ending) -> Status
    ensures { result ≡ status_at ending }
{
    match ending {
        Ending::Done => Status::Done,
        Ending::Budget => Status::Budget,
        Ending::Restarted => Status::Restarted,
    }
}

/// Writes why an input is no world.
fn put_bad_world<K: Sink>(sink: &mut K, line: u32, why: Why) -> Result<(), Failed>
    ensures writes { Writes result (bad_world_text line why) (K.written sink.old) (K.written sink.new) }
    ensures failed { OnErr result (Rose (K.faults sink.old) (K.faults sink.new)) }
    ensures never_falls { K.faults sink.old ≤ K.faults sink.new }
{
    put_all(sink, b"bad world line ")?;
    put_number(sink, line)?;
    put_all(sink, b": ")?;
    put_all(sink, why.text())?;
    put_all(sink, b"\n")
}

/// Writes the text of a refusal. The other statuses have none here.
#[tactic(auto, unfolding(crate::specs::Top::usage_text, crate::specs::Top::read_fault_text, crate::specs::Top::memory_text))]
fn put_refusal<K: Sink>(sink: &mut K, status: Status) -> Result<(), Failed>
    ensures writes { Writes result (refusal_text status) (K.written sink.old) (K.written sink.new) }
    ensures failed { OnErr result (Rose (K.faults sink.old) (K.faults sink.new)) }
    ensures never_falls { K.faults sink.old ≤ K.faults sink.new }
{
    match status {
        Status::Usage => put_all(
            sink,
            b"usage: otherworld run | run --evidence | asm | gen N\n",
        ),
        Status::BadWorld { line, why } => put_bad_world(sink, line, why),
        Status::ReadFault => put_all(sink, b"read fault\n"),
        Status::Memory => put_all(sink, b"out of memory\n"),
        Status::Done | Status::WriteFault | Status::Budget | Status::Restarted => Ok(()),
    }
}

/// Writes the text of a refusal, and answers its status.
fn refuse<K: Sink>(sink: &mut K, status: Status) -> Status
    ensures said { IsSaid (refusal_text status) status (Rose (K.faults sink.old) (K.faults sink.new)) (K.written sink.old) (K.written sink.new) result }
    ensures never_falls { K.faults sink.old ≤ K.faults sink.new }
{
    match put_refusal(sink, status) {
        Ok(()) => status,
        Err(Failed) => Status::WriteFault,
    }
}

/// The status of a world that was not read.
fn unread(fault: WorldFault) -> Status
    ensures { result ≡ unread_status fault }
{
    match fault {
        WorldFault::Bad { line, why } => Status::BadWorld { line, why },
        WorldFault::Memory(_) => Status::Memory,
    }
}

/// Reads a world, arms the plant for it and makes the log of its run. A refusal leaves the plant as it was.
fn load_world<S: Source>(
    alloc: Global,
    source: &mut S,
    plant: &mut Plant,
) -> Result<(World, RunLog), Status>
    requires { plant.old.armed ≡ false }
    ensures read { IfOk result (λ loaded. IsRead (S.left source.old) (S.left source.new) loaded.0) }
    ensures armed { IfOk result (λ loaded. IsArmedFor loaded.0 loaded.1 plant.new) }
    ensures refused { IfErr result (λ status. Intends true (S.left source.old) (S.left source.new) (Rose (S.faults source.old) (S.faults source.new)) plant.old plant.new status (refusal_text status)) }
    ensures never_falls { S.faults source.old ≤ S.faults source.new }
{
    let bytes = match read_all(alloc, source, MOST_BYTES) {
        Ok(bytes) => bytes,
        Err(ReadAllFault::ReadFault) => return Err(Status::ReadFault),
        Err(ReadAllFault::TooLarge) => {
            return Err(Status::BadWorld {
                line: 0,
                why: Why::TooLarge,
            });
        }
        Err(ReadAllFault::Memory(_)) => return Err(Status::Memory),
    };
    let world = match read_world(alloc, bytes.as_slice()) {
        Ok(world) => world,
        Err(fault) => return Err(unread(fault)),
    };
    match arm_for(alloc, plant, &world) {
        Ok(log) => Ok((world, log)),
        Err(AllocError) => Err(Status::Memory),
    }
}

/// Runs a world on the plant that is armed for it, with the panics that it lists, and writes the report. The log is told
/// what each panic brought.
fn run_world<K: Sink>(world: &World, log: &mut RunLog, plant: &mut Plant, sink: &mut K) -> Status
    requires armed { IsArmedFor world.now log.old plant.old }
    requires value { (input : List ℕ) × IsWorld input world.now }
    requires built { IsBuilt world.now }
    ensures reported { (ending : Ending) × (text : List ℕ) × IsReported world.now plant.new ending text
        × IsSaid text (status_at ending) (Rose (K.faults sink.old) (K.faults sink.new)) (K.written sink.old) (K.written sink.new) result }
    ensures never_falls { K.faults sink.old ≤ K.faults sink.new }
{
    worlds_can_boot();
    let ending = run(plant, &world.load, log);
    match write_report(sink, world, plant, log, ending) {
        Ok(()) => status_of(ending),
        Err(Failed) => Status::WriteFault,
    }
}

/// The program: with the words `run` it reads a world from the source, runs it on the plant with the panics that it
/// lists, and writes the report to the sink. With other words it writes how it is used.
///
/// The answer is the status, with its text in the sink. `WriteFault` comes where the sink failed; what was
/// written is then a front of the text.
pub fn otherworld<S: Source, K: Sink>(
    alloc: Global,
    words: &[String],
    source: &mut S,
    sink: &mut K,
    plant: &mut Plant,
) -> Status
    requires { plant.old.armed ≡ false }
    ensures answers { Answers (Intends (is_run_alone words.now) (S.left source.old) (S.left source.new) (Rose (S.faults source.old) (S.faults source.new)) plant.old plant.new)
        (Rose (K.faults sink.old) (K.faults sink.new)) (K.written sink.old) (K.written sink.new) result }
    ensures source_never_falls { S.faults source.old ≤ S.faults source.new }
    ensures sink_never_falls { K.faults sink.old ≤ K.faults sink.new }
{
    if !is_run(words) {
        return refuse(sink, Status::Usage);
    }
    match load_world(alloc, source, plant) {
        Ok((world, mut log)) => run_world(&world, &mut log, plant, sink),
        Err(status) => refuse(sink, status),
    }
}
