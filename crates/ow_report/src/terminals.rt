//! The lines of the terminals.
ghost use Rattle.std.specs.Prelude.{◌≡◌, ◌≤◌, true, length, codes, decimal, OnErr};
ghost use Rattle.ow_base.specs.Lines.{line, spaced, escaped};
ghost use Rattle.ow_base.specs.Outside.{Rose, Writes};
ghost use Rattle.record_layouts.specs.Unix.Report.{out_lines, tape_text, row_lines, trimmed, row_line_of, screen_text, terminal_text};
ghost use Rattle.ow_report.specs.Agrees.{terminals_text};
ghost use Rattle.ow_report.specs.Writing.{tape_line_count};

use crate::lines::{Token, put_line};
use ow_base::{Failed, Sink, put_all};
use ow_plant::{Display, Plant};
use record_layouts::ROWS;

/// How many bytes of a tape one line has.
const TAPE_LINE: usize = 64;

/// Writes the line of a piece of a tape.
fn put_out_line<K: Sink>(sink: &mut K, bytes: &[u8]) -> Result<(), Failed>
    ensures writes { Writes result (line (spaced (codes "out") (escaped bytes.now))) (K.written sink.old) (K.written sink.new) }
    ensures failed { OnErr result (Rose (K.faults sink.old) (K.faults sink.new)) }
    ensures never_falls { K.faults sink.old ≤ K.faults sink.new }
{
    put_line(sink, b"out", &[Token::Escaped(bytes)])
}

/// Writes a tape, 64 bytes a line, the last line shorter.
fn put_out_lines<K: Sink>(sink: &mut K, tape: &[u8]) -> Result<(), Failed>
    ensures writes { Writes result (out_lines (tape_line_count tape.now) tape.now) (K.written sink.old) (K.written sink.new) }
    ensures failed { OnErr result (Rose (K.faults sink.old) (K.faults sink.new)) }
    ensures never_falls { K.faults sink.old ≤ K.faults sink.new }
{
    let mut rest = tape;
    while !rest.is_empty() {
        let (bytes, others) = rest.split_at(rest.len().min(TAPE_LINE));
        match put_out_line(sink, bytes) {
            Ok(()) => rest = others,
            Err(Failed) => return Err(Failed),
        }
    }
    Ok(())
}

/// Writes the line of a terminal and its tape's length.
fn put_tape_line<K: Sink>(sink: &mut K, tty: u32, length: usize) -> Result<(), Failed>
    ensures writes { Writes result (line (spaced (spaced (codes "tty") (decimal tty)) (decimal length))) (K.written sink.old) (K.written sink.new) }
    ensures failed { OnErr result (Rose (K.faults sink.old) (K.faults sink.new)) }
    ensures never_falls { K.faults sink.old ≤ K.faults sink.new }
{
    put_line(
        sink,
        b"tty",
        &[Token::Number(u64::from(tty)), Token::Number(length as u64)],
    )
}

/// Writes the tape of a terminal.
fn put_tape<K: Sink>(sink: &mut K, tty: u32, tape: &[u8]) -> Result<(), Failed>
    ensures writes { Writes result (tape_text tty tape.now) (K.written sink.old) (K.written sink.new) }
    ensures failed { OnErr result (Rose (K.faults sink.old) (K.faults sink.new)) }
    ensures never_falls { K.faults sink.old ≤ K.faults sink.new }
{
    match put_tape_line(sink, tty, tape.len()) {
        Ok(()) => put_out_lines(sink, tape),
        Err(Failed) => Err(Failed),
    }
}

/// The row without its trailing spaces.
fn without_trailing_spaces(row: &[u8]) -> &[u8]
    ensures { result.now ≡ trimmed row.now }
{
    let mut rest = row;
    while let Some(front) = rest.strip_suffix(b" ") {
        rest = front;
    }
    rest
}

/// Writes the line of a row, which has none if it is blank.
fn put_row<K: Sink>(sink: &mut K, number: u32, row: &[u8]) -> Result<(), Failed>
    ensures writes { Writes result (row_line_of number (trimmed row.now)) (K.written sink.old) (K.written sink.new) }
    ensures failed { OnErr result (Rose (K.faults sink.old) (K.faults sink.new)) }
    ensures never_falls { K.faults sink.old ≤ K.faults sink.new }
{
    let text = without_trailing_spaces(row);
    if text.is_empty() {
        return Ok(());
    }
    put_line(
        sink,
        b"row",
        &[Token::Number(u64::from(number)), Token::Escaped(text)],
    )
}

/// Writes the rows of a screen that are not blank.
fn put_rows<K: Sink>(sink: &mut K, display: &Display) -> Result<(), Failed>
    ensures writes { Writes result (row_lines 0 display.now.rows) (K.written sink.old) (K.written sink.new) }
    ensures failed { OnErr result (Rose (K.faults sink.old) (K.faults sink.new)) }
    ensures never_falls { K.faults sink.old ≤ K.faults sink.new }
{
    for number in 0..ROWS {
        match put_row(sink, number, display.row(number)) {
            Ok(()) => {}
            Err(Failed) => return Err(Failed),
        }
    }
    Ok(())
}

/// Writes the line of a screen: its terminal and where the cursor is.
fn put_cursor<K: Sink>(sink: &mut K, tty: u32, row: u32, col: u32) -> Result<(), Failed>
    ensures writes { Writes result (line (spaced (spaced (spaced (codes "screen") (decimal tty)) (decimal row)) (decimal col))) (K.written sink.old) (K.written sink.new) }
    ensures failed { OnErr result (Rose (K.faults sink.old) (K.faults sink.new)) }
    ensures never_falls { K.faults sink.old ≤ K.faults sink.new }
{
    let tty = Token::Number(u64::from(tty));
    put_line(
        sink,
        b"screen",
        &[
            tty,
            Token::Number(u64::from(row)),
            Token::Number(u64::from(col)),
        ],
    )
}

/// Writes the screen of a terminal.
fn put_screen<K: Sink>(sink: &mut K, tty: u32, display: &Display) -> Result<(), Failed>
    ensures writes { Writes result (screen_text tty display.now) (K.written sink.old) (K.written sink.new) }
    ensures failed { OnErr result (Rose (K.faults sink.old) (K.faults sink.new)) }
    ensures never_falls { K.faults sink.old ≤ K.faults sink.new }
{
    let (row, col) = display.at();
    match put_cursor(sink, tty, row, col) {
        Ok(()) => put_rows(sink, display),
        Err(Failed) => Err(Failed),
    }
}

/// Writes a terminal: its tape and its screen.
pub(crate) fn put_terminal<K: Sink>(
    sink: &mut K,
    tty: u32,
    tape: &[u8],
    display: &Display,
) -> Result<(), Failed>
    ensures writes { Writes result (terminal_text tty tape.now display.now) (K.written sink.old) (K.written sink.new) }
    ensures failed { OnErr result (Rose (K.faults sink.old) (K.faults sink.new)) }
    ensures never_falls { K.faults sink.old ≤ K.faults sink.new }
{
    match put_tape(sink, tty, tape) {
        Ok(()) => put_screen(sink, tty, display),
        Err(Failed) => Err(Failed),
    }
}

/// Writes both terminals of a plant, and the last line of the report.
pub(crate) fn put_terminals<K: Sink>(sink: &mut K, plant: &Plant) -> Result<(), Failed>
    requires armed { plant.now.armed ≡ true }
    ensures writes { Writes result (terminals_text plant.now) (K.written sink.old) (K.written sink.new) }
    ensures failed { OnErr result (Rose (K.faults sink.old) (K.faults sink.new)) }
    ensures never_falls { K.faults sink.old ≤ K.faults sink.new }
{
    match put_terminal(sink, 0, plant.tape(0), plant.display(0)) {
        Ok(()) => {}
        Err(Failed) => return Err(Failed),
    }
    match put_terminal(sink, 1, plant.tape(1), plant.display(1)) {
        Ok(()) => put_all(sink, b"end\n"),
        Err(Failed) => Err(Failed),
    }
}
