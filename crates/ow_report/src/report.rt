//! The report.
ghost use Rattle.std.specs.Prelude.{◌≡◌, ◌≤◌, ◌++◌, codes, OnErr};
ghost use Rattle.ow_base.specs.Lines.{line, spaced};
ghost use Rattle.ow_base.specs.Outside.{Rose, Writes};
ghost use Rattle.ow_plant.specs.State.{IsArmed};
ghost use Rattle.record_layouts.specs.Unix.PanicReport.{panic_lines, report_with, unused_lines};
ghost use Rattle.record_layouts.specs.Unix.Report.{ending_word, head_text};
ghost use Rattle.record_layouts.specs.Unix.State.{Unix};
ghost use Rattle.ow_report.specs.Agrees.{PlantAgrees, plant_text};

use crate::lines::{Token, put_line, put_number_line};
use crate::panics::put_panics;
use crate::processes::put_processes;
use crate::terminals::put_terminals;
use crate::unused::put_unused;
use ow_base::{Ending, Failed, Sink, World, put_all};
use ow_plant::Plant;
use world_file::RunLog;

/// The word of an ending.
fn ending_key(ending: Ending) -> &'static [u8]
    ensures { result.now ≡ ending_word ending }
{
    match ending {
        Ending::Done => b"done",
        Ending::Budget => b"budget",
        Ending::Restarted => b"restart",
    }
}

/// Writes the line of an ending.
fn put_ending<K: Sink>(sink: &mut K, ending: Ending) -> Result<(), Failed>
    ensures writes { Writes result (line (spaced (codes "ending") (ending_word ending))) (K.written sink.old) (K.written sink.new) }
    ensures failed { OnErr result (Rose (K.faults sink.old) (K.faults sink.new)) }
    ensures never_falls { K.faults sink.old ≤ K.faults sink.new }
{
    put_line(sink, b"ending", &[Token::Key(ending_key(ending))])
}

/// Writes the four lines that a report begins with.
fn put_head<K: Sink>(sink: &mut K, ending: Ending, steps: u32, traps: u32) -> Result<(), Failed>
    ensures writes { Writes result (head_text ending steps traps) (K.written sink.old) (K.written sink.new) }
    ensures failed { OnErr result (Rose (K.faults sink.old) (K.faults sink.new)) }
    ensures never_falls { K.faults sink.old ≤ K.faults sink.new }
{
    match put_all(sink, b"otherworld 1\n") {
        Ok(()) => {}
        Err(Failed) => return Err(Failed),
    }
    match put_ending(sink, ending) {
        Ok(()) => {}
        Err(Failed) => return Err(Failed),
    }
    match put_number_line(sink, b"steps", steps) {
        Ok(()) => {}
        Err(Failed) => return Err(Failed),
    }
    put_number_line(sink, b"traps", traps)
}

/// Writes the processes and the terminals that a run left, and the last line.
fn put_state<K: Sink>(sink: &mut K, plant: &Plant) -> Result<(), Failed>
    requires armed { IsArmed plant.now }
    ensures writes { Writes result (plant_text plant.now) (K.written sink.old) (K.written sink.new) }
    ensures failed { OnErr result (Rose (K.faults sink.old) (K.faults sink.new)) }
    ensures never_falls { K.faults sink.old ≤ K.faults sink.new }
{
    match put_processes(sink, plant) {
        Ok(()) => put_terminals(sink, plant),
        Err(Failed) => Err(Failed),
    }
}

/// Writes the panics of a run, with the fates that they brought, and what the world lists that did not come.
fn put_all_panics<K: Sink>(
    sink: &mut K,
    world: &World,
    plant: &Plant,
    log: &RunLog,
) -> Result<(), Failed>
    ensures writes { Writes result (panic_lines plant.now.history log.now.entries ++ unused_lines world.now.panics plant.now.history) (K.written sink.old) (K.written sink.new) }
    ensures failed { OnErr result (Rose (K.faults sink.old) (K.faults sink.new)) }
    ensures never_falls { K.faults sink.old ≤ K.faults sink.new }
{
    match put_panics(sink, plant.history(), log) {
        Ok(()) => put_unused(sink, world.panics.items(), plant.history()),
        Err(Failed) => Err(Failed),
    }
}

/// Writes the report of a run of a world that ended so: what the log tells of its panics, and the state that the plant
/// stands for.
///
/// After `Failed`, which comes only where the sink failed, a front of it is written.
pub fn write_report<K: Sink>(
    sink: &mut K,
    world: &World,
    plant: &Plant,
    log: &RunLog,
    ending: Ending,
) -> Result<(), Failed>
    requires armed { IsArmed plant.now }
    ensures writes { (w : Unix) → PlantAgrees plant.now w
        → Writes result (report_with world.now.panics plant.now.history log.now.entries ending w) (K.written sink.old) (K.written sink.new) }
    ensures failed { OnErr result (Rose (K.faults sink.old) (K.faults sink.new)) }
    ensures never_falls { K.faults sink.old ≤ K.faults sink.new }
{
    match put_head(sink, ending, plant.steps(), plant.traps()) {
        Ok(()) => {}
        Err(Failed) => return Err(Failed),
    }
    match put_all_panics(sink, world, plant, log) {
        Ok(()) => put_state(sink, plant),
        Err(Failed) => Err(Failed),
    }
}
