//! The lines of what is listed in a world and did not come.
ghost use Rattle.std.specs.Prelude.{◌≡◌, ◌≤◌, Option, Some, None, IfNone, IfSome, drop, flat_map, length, OnErr};
ghost use Rattle.ow_base.specs.Outside.{Rose, Writes};
ghost use Rattle.record_layouts.specs.Unix.PanicReport.{entry_for, unused_again, unused_lines, unused_of};
ghost use Rattle.ow_report.specs.Writing.{entry_of, unused_panic};

use crate::lines::{Token, put_line, put_numbers_line};
use ow_base::{Failed, PanicLine, PanicRecord, Sink};

/// The panic that came at a trap.
fn entry_for(history: &[PanicRecord], trap: u32) -> Option<&PanicRecord>
    ensures { entry_of result ≡ entry_for history.now trap }
{
    for entry in history {
        if entry.trap == trap {
            return Some(entry);
        }
    }
    None
}

/// Writes the line of a panic that did not come.
fn put_unused_panic<K: Sink>(sink: &mut K, panic: &PanicLine) -> Result<(), Failed>
    ensures writes { Writes result (unused_panic panic.now) (K.written sink.old) (K.written sink.new) }
    ensures failed { OnErr result (Rose (K.faults sink.old) (K.faults sink.new)) }
    ensures never_falls { K.faults sink.old ≤ K.faults sink.new }
{
    put_numbers_line(sink, b"unused", panic.trap, panic.store)
}

/// Writes the line of a store of a resurrection that did not break it.
fn put_again<K: Sink>(sink: &mut K, trap: u32, store: u32) -> Result<(), Failed>
    ensures writes { Writes result (unused_again trap store) (K.written sink.old) (K.written sink.new) }
    ensures failed { OnErr result (Rose (K.faults sink.old) (K.faults sink.new)) }
    ensures never_falls { K.faults sink.old ≤ K.faults sink.new }
{
    let again = Token::Key(b"again");
    let trap = Token::Number(u64::from(trap));
    put_line(
        sink,
        b"unused",
        &[again, trap, Token::Number(u64::from(store))],
    )
}

/// Writes the lines of those stores of the resurrections of one panic.
fn put_agains<K: Sink>(sink: &mut K, trap: u32, stores: &[u32]) -> Result<(), Failed>
    ensures writes { Writes result (flat_map (unused_again trap) stores.now) (K.written sink.old) (K.written sink.new) }
    ensures failed { OnErr result (Rose (K.faults sink.old) (K.faults sink.new)) }
    ensures never_falls { K.faults sink.old ≤ K.faults sink.new }
{
    for store in stores {
        match put_again(sink, trap, *store) {
            Ok(()) => {}
            Err(Failed) => return Err(Failed),
        }
    }
    Ok(())
}

/// The items behind so many of the first ones.
fn behind(items: &[u32], count: usize) -> &[u32]
    ensures { result.now ≡ drop count items.now }
{
    &items[count.min(items.len())..]
}

/// Writes what did not come of a panic that is listed, where it came as this entry.
fn put_unused_of<K: Sink>(
    sink: &mut K,
    panic: &PanicLine,
    entry: Option<&PanicRecord>,
) -> Result<(), Failed>
    ensures writes { Writes result (unused_of panic.now (entry_of entry.entry)) (K.written sink.old) (K.written sink.new) }
    ensures failed { OnErr result (Rose (K.faults sink.old) (K.faults sink.new)) }
    ensures never_falls { K.faults sink.old ≤ K.faults sink.new }
{
    let agains = panic.agains.items();
    match entry {
        Some(entry) => put_agains(sink, panic.trap, behind(agains, entry.broken.len())),
        None => match put_unused_panic(sink, panic) {
            Ok(()) => put_agains(sink, panic.trap, agains),
            Err(Failed) => Err(Failed),
        },
    }
}

/// Writes what is listed in a world and did not come, in the world's order.
pub(crate) fn put_unused<K: Sink>(
    sink: &mut K,
    panics: &[PanicLine],
    history: &[PanicRecord],
) -> Result<(), Failed>
    ensures writes { Writes result (unused_lines panics.now history.now) (K.written sink.old) (K.written sink.new) }
    ensures failed { OnErr result (Rose (K.faults sink.old) (K.faults sink.new)) }
    ensures never_falls { K.faults sink.old ≤ K.faults sink.new }
{
    for panic in panics {
        match put_unused_of(sink, panic, entry_for(history, panic.trap)) {
            Ok(()) => {}
            Err(Failed) => return Err(Failed),
        }
    }
    Ok(())
}
