//! Each answer of the view of a dead kernel beside what the rules say of the same words.
ghost use Rattle.std.specs.Prelude.{◌<◌};

use crate::fields::{
    of_description, of_entry, of_exit, of_file, of_head, of_process, of_row, of_signals,
    of_terminal,
};
use crate::left_memory::LeftMemory;
use crate::plain_area::PlainArea;
use crate::plain_dead::PlainProcess;
use crate::plain_records::Kind;
use dead_reader::{DeadMemory, DeadProc, DeadView, RecordView, Unreadable};
use std::alloc::{AllocError, Global};

// All slots.
const SLOTS: [u32; 16] = [0, 1, 2, 3, 4, 5, 6, 7, 8, 9, 10, 11, 12, 13, 14, 15];

type View<'m> = DeadView<'m, LeftMemory>;

// The fields of a record stand behind the word with which it begins; none is told where the words are no record.
fn agrees<const N: usize>(fields: Option<[u32; N]>, words: Option<&[u32]>) -> bool {
    match (fields, words) {
        (Some(fields), Some(words)) => words.iter().skip(1).take(N).eq(fields.iter()),
        (None, None) => true,
        _ => false,
    }
}

fn slots_agree(view: &View<'_>, plain: &PlainArea<'_>) -> bool {
    for slot in 0..16 {
        let process = view.proc(slot).map(of_process);
        let signals = view.sig(slot).map(of_signals);
        if !agrees(process, plain.record(Kind::Proc, slot))
            || !agrees(signals, plain.record(Kind::Sig, slot))
        {
            return false;
        }
    }
    true
}

fn files_agree(view: &View<'_>, plain: &PlainArea<'_>) -> bool {
    for i in 0..32 {
        let description = view.desc(i).map(of_description);
        let file = view.file(i).map(of_file);
        if !agrees(description, plain.record(Kind::Desc, i))
            || !agrees(file, plain.record(Kind::File, i))
        {
            return false;
        }
    }
    true
}

fn cache_agrees(view: &View<'_>, plain: &PlainArea<'_>) -> bool {
    for entry in 0..64 {
        let rec = view.cache(entry).map(of_entry);
        if !agrees(rec, plain.record(Kind::Cache, entry))
            || view.cache_owner(entry) != plain.cache_owner(entry)
            || view.dirty(entry) != plain.dirty(entry)
        {
            return false;
        }
    }
    true
}

fn terminals_agree(view: &View<'_>, plain: &PlainArea<'_>, memory: &LeftMemory) -> bool {
    for tty in 0..2 {
        let rec = view.term(tty).map(of_terminal);
        let byte = view.in_flight(tty).map(u32::from);
        if !agrees(rec, plain.record(Kind::Term, tty))
            || byte != plain.in_flight(tty, memory.count(tty))
        {
            return false;
        }
    }
    true
}

fn rows_agree(view: &View<'_>, plain: &PlainArea<'_>) -> bool {
    for row in 0..48 {
        let rec = view.row(row).map(of_row);
        if !agrees(rec, plain.record(Kind::Row, row)) {
            return false;
        }
    }
    true
}

fn exits_agree(view: &View<'_>, plain: &PlainArea<'_>) -> bool {
    for pid in 1..257 {
        let rec = view.exit(pid).map(of_exit);
        if !agrees(rec, plain.record(Kind::Exit, pid - 1)) {
            return false;
        }
    }
    true
}

fn owners_agree(view: &View<'_>, plain: &PlainArea<'_>) -> bool {
    (0..400u32).all(|number| view.owner(number) == plain.owner(number))
}

// Some words of each table.
fn tables_agree(view: &View<'_>, plain: &PlainArea<'_>) -> bool {
    for slot in 0..16 {
        for place in [0, 16, 511, 1023] {
            let words = [
                view.table_word(slot, 0, place),
                view.table_word(slot, 1, place),
                view.table_word(slot, 2, place),
            ];
            let wanted = [
                plain.table_word(slot, 0, place),
                plain.table_word(slot, 1, place),
                plain.table_word(slot, 2, place),
            ];
            if words != wanted {
                return false;
            }
        }
    }
    true
}

// A process is told as it is left, and so is what it lost.
fn is_told(
    told: &DeadProc,
    lost: u32,
    slot: u32,
    plain: &PlainArea<'_>,
    wanted: &Result<Option<PlainProcess>, Unreadable>,
) -> bool {
    let Ok(Some(left)) = wanted else {
        return false;
    };
    told.slot == slot
        && agrees(Some(of_process(told.rec)), Some(&left.words))
        && agrees(told.sig.map(of_signals), plain.record(Kind::Sig, slot))
        && told.aborted == left.aborted
        && told.stands == left.stands
        && lost == plain.lost(slot, &left.words)
}

// What is told of a slot: its pid, its process or the first part that does not decode, and what the process lost.
fn process_agrees(view: &View<'_>, plain: &PlainArea<'_>, memory: &LeftMemory, slot: u32) -> bool
    requires { slot < 16 }
{
    if view.pid_in(slot) != plain.pid_in(slot) {
        return false;
    }
    let wanted = plain.process(slot, memory.handover());
    let found = match view.process(slot) {
        Ok(found) => found,
        Err(told) => return matches!(wanted, Err(unreadable) if unreadable == told),
    };
    match found {
        Some(told) => {
            let lost = view.resources(&told);
            is_told(&told, lost, slot, plain, &wanted)
        }
        None => matches!(wanted, Ok(None)),
    }
}

fn processes_agree(
    view: &View<'_>,
    plain: &PlainArea<'_>,
    memory: &LeftMemory,
    slots: &[u32],
) -> bool {
    for slot in slots {
        if !process_agrees(view, plain, memory, *slot % 16) {
            return false;
        }
    }
    true
}

fn head_agrees(view: &View<'_>, plain: &PlainArea<'_>) -> bool {
    agrees(view.head().map(of_head), plain.record(Kind::Head, 0))
}

/// The first answers of the view over a memory that are not what the rules say.
pub(crate) fn first_difference(
    alloc: Global,
    memory: &LeftMemory,
) -> Result<Option<&'static str>, AllocError> {
    let plain = PlainArea::of(alloc, memory)?;
    let view = DeadView::new(memory);
    let parts = [
        ("head", head_agrees(&view, &plain)),
        ("slots", slots_agree(&view, &plain)),
        ("files", files_agree(&view, &plain)),
        ("cache", cache_agrees(&view, &plain)),
        ("terminals", terminals_agree(&view, &plain, memory)),
        ("rows", rows_agree(&view, &plain)),
        ("exits", exits_agree(&view, &plain)),
        ("owners", owners_agree(&view, &plain)),
        ("tables", tables_agree(&view, &plain)),
        ("processes", processes_agree(&view, &plain, memory, &SLOTS)),
    ];
    Ok(parts.iter().find(|part| !part.1).map(|part| part.0))
}

/// The same of the head and of the processes of these slots alone.
pub(crate) fn difference_in(
    alloc: Global,
    memory: &LeftMemory,
    slots: &[u32],
) -> Result<Option<&'static str>, AllocError> {
    let plain = PlainArea::of(alloc, memory)?;
    let view = DeadView::new(memory);
    let parts = [
        ("head", head_agrees(&view, &plain)),
        ("processes", processes_agree(&view, &plain, memory, slots)),
    ];
    Ok(parts.iter().find(|part| !part.1).map(|part| part.0))
}

// The records of a frame of the area agree.
fn frame_agrees(view: &View<'_>, plain: &PlainArea<'_>, memory: &LeftMemory, frame: usize) -> bool {
    match frame {
        1 | 2 => slots_agree(view, plain),
        3 => slots_agree(view, plain) && files_agree(view, plain),
        4..7 => files_agree(view, plain) && cache_agrees(view, plain),
        7 => cache_agrees(view, plain) && terminals_agree(view, plain, memory),
        8 | 9 => rows_agree(view, plain) && terminals_agree(view, plain, memory),
        10 => owners_agree(view, plain) && cache_agrees(view, plain),
        11 => exits_agree(view, plain),
        _ => tables_agree(view, plain),
    }
}

/// The same of the head, of the processes of these slots, and of what one frame of the area has.
pub(crate) fn difference_near(
    alloc: Global,
    memory: &LeftMemory,
    frame: usize,
    slots: &[u32],
) -> Result<Option<&'static str>, AllocError> {
    let plain = PlainArea::of(alloc, memory)?;
    let view = DeadView::new(memory);
    let parts = [
        ("head", head_agrees(&view, &plain)),
        ("processes", processes_agree(&view, &plain, memory, slots)),
        ("frame", frame_agrees(&view, &plain, memory, frame)),
    ];
    Ok(parts.iter().find(|part| !part.1).map(|part| part.0))
}
