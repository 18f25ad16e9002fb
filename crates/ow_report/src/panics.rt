//! The lines of the panics that came: each with its fates.
ghost use Rattle.std.specs.Prelude.{◌≡◌, ◌≤◌, [], get_or, flat_map, OnErr};
ghost use Rattle.ow_base.specs.Outside.{Rose, Writes};
ghost use Rattle.record_layouts.specs.Unix.PanicReport.{broken_line, fate_line, fate_words, panic_line, panic_lines, point_word, with_fates};

use crate::lines::{Token, put_line, put_number_line, put_numbers_line};
use ow_base::{Failed, PanicRecord, Sink};
use record_layouts::Fate;
use world_file::RunLog;

/// The word for where in its trap a panic came.
fn point_key(at_leave: bool) -> &'static [u8]
    ensures { result.now ≡ point_word at_leave }
{
    if at_leave { b"leave" } else { b"store" }
}

/// Writes the line of a panic, with the store that the world lists for it.
fn put_panic_line<K: Sink>(sink: &mut K, entry: &PanicRecord) -> Result<(), Failed>
    ensures writes { Writes result (panic_line entry.now) (K.written sink.old) (K.written sink.new) }
    ensures failed { OnErr result (Rose (K.faults sink.old) (K.faults sink.new)) }
    ensures never_falls { K.faults sink.old ≤ K.faults sink.new }
{
    let tokens = [
        Token::Number(u64::from(entry.trap)),
        Token::Number(u64::from(entry.listed)),
        Token::Key(point_key(entry.at_leave)),
        Token::Key(b"pid"),
        Token::Number(u64::from(entry.pid)),
    ];
    put_line(sink, b"panic", &tokens)
}

/// Writes the lines of the stores at which resurrections were broken.
fn put_broken<K: Sink>(sink: &mut K, stores: &[u32]) -> Result<(), Failed>
    ensures writes { Writes result (flat_map broken_line stores.now) (K.written sink.old) (K.written sink.new) }
    ensures failed { OnErr result (Rose (K.faults sink.old) (K.faults sink.new)) }
    ensures never_falls { K.faults sink.old ≤ K.faults sink.new }
{
    for store in stores {
        match put_number_line(sink, b"broken", *store) {
            Ok(()) => {}
            Err(Failed) => return Err(Failed),
        }
    }
    Ok(())
}

/// Writes the line of a process and its fate.
fn put_fate<K: Sink>(sink: &mut K, pid: u32, fate: Fate) -> Result<(), Failed>
    ensures writes { Writes result (fate_words pid fate) (K.written sink.old) (K.written sink.new) }
    ensures failed { OnErr result (Rose (K.faults sink.old) (K.faults sink.new)) }
    ensures never_falls { K.faults sink.old ≤ K.faults sink.new }
{
    match fate {
        Fate::Goes => put_number_line(sink, b"goes", pid),
        Fate::Aborted => put_number_line(sink, b"aborted", pid),
        Fate::Stands => put_number_line(sink, b"stands", pid),
        Fate::Procedure(mask) => put_numbers_line(sink, b"procedure", pid, mask),
        Fate::Lost(bits) => put_numbers_line(sink, b"lost", pid, bits),
    }
}

/// Writes the lines of the fates that a panic brought.
fn put_fates<K: Sink>(sink: &mut K, fates: &[(u32, Fate)]) -> Result<(), Failed>
    ensures writes { Writes result (flat_map fate_line fates.now) (K.written sink.old) (K.written sink.new) }
    ensures failed { OnErr result (Rose (K.faults sink.old) (K.faults sink.new)) }
    ensures never_falls { K.faults sink.old ≤ K.faults sink.new }
{
    for (pid, fate) in fates {
        match put_fate(sink, *pid, *fate) {
            Ok(()) => {}
            Err(Failed) => return Err(Failed),
        }
    }
    Ok(())
}

/// Writes a panic: its line, the resurrections of it that were broken, and the fates that it brought.
fn put_panic<K: Sink>(
    sink: &mut K,
    entry: &PanicRecord,
    fates: &[(u32, Fate)],
) -> Result<(), Failed>
    ensures writes { Writes result (with_fates entry.now fates.now) (K.written sink.old) (K.written sink.new) }
    ensures failed { OnErr result (Rose (K.faults sink.old) (K.faults sink.new)) }
    ensures never_falls { K.faults sink.old ≤ K.faults sink.new }
{
    match put_panic_line(sink, entry) {
        Ok(()) => {}
        Err(Failed) => return Err(Failed),
    }
    match put_broken(sink, entry.broken.as_slice()) {
        Ok(()) => put_fates(sink, fates),
        Err(Failed) => Err(Failed),
    }
}

/// The fates that a panic brought; a panic that the log does not have brought none.
fn fates_of(log: &RunLog, index: usize) -> &[(u32, Fate)]
    ensures { result.now ≡ get_or log.now.entries index [] }
{
    if index < log.len() {
        log.entry(index)
    } else {
        &[]
    }
}

/// Writes the panics that came, each with its fates.
pub(crate) fn put_panics<K: Sink>(
    sink: &mut K,
    history: &[PanicRecord],
    log: &RunLog,
) -> Result<(), Failed>
    ensures writes { Writes result (panic_lines history.now log.now.entries) (K.written sink.old) (K.written sink.new) }
    ensures failed { OnErr result (Rose (K.faults sink.old) (K.faults sink.new)) }
    ensures never_falls { K.faults sink.old ≤ K.faults sink.new }
{
    for (index, entry) in history.iter().enumerate() {
        match put_panic(sink, entry, fates_of(log, index)) {
            Ok(()) => {}
            Err(Failed) => return Err(Failed),
        }
    }
    Ok(())
}
