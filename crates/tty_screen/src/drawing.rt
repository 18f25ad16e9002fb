//! The patch that draws a byte.
ghost use Rattle.std.specs.Prelude.{◌≡◌, ◌≢◌, ◌+◌, ◌%◌, ◌<◌, ◌≤◌, ◌++◌, if◌then◌else◌, length, All, IfSome, IsFalse, Option};
ghost use Rattle.record_layouts.specs.Held.{SectorsAre, with_items};
ghost use Rattle.record_layouts.specs.Patch.{IsPatch};
ghost use Rattle.record_layouts.specs.Row.{FitsRow};
ghost use Rattle.record_layouts.specs.Term.{FitsTerm};
ghost use Rattle.tty_screen.specs.Drawing.{CountsByte, DrawsByte, HasItsPlace, IsCounted, IsOfTerminal, StaysBeside, is_seen};
ghost use Rattle.tty_screen.specs.Shown.{TerminalDecodes, row_number};
ghost use Rattle.tty_screen.specs.Strokes.{blank_record, cursor_after, row_items, scrolls, top_after, with_byte};

use crate::ring::record_of_row;
use record_layouts::{PatchView, ROWS, RecordId, RecordRef, RecordView, RowRec, TermRec};
use std::marker::Model;

const BLANK_ROW: [u8; 80] = [b' '; 80];

const LAST_ROW: u32 = 23;

const LAST_COL: u32 = 79;

/// What draws a byte on a terminal: the terminal's record, the row in which the byte is seen, and the row that is
/// blanked. Contracts see the list of those that there are.
#[derive(Debug, Drop)]
pub struct BytePatch {
    tty: u32,
    terminal: TermRec,
    seen: Option<RowRec>,
    blanked: Option<RowRec>,
}

impl Model for BytePatch {
    ghost use Rattle.std.specs.Prelude.{List};
    ghost use Rattle.record_layouts.specs.declared.patch.PatchItem.{PatchItem};
    ghost use Rattle.tty_screen.specs.Strokes.{byte_items};

    ghost Value = { List PatchItem };

    ghost view = { λ p. byte_items p.tty p.terminal p.seen p.blanked };
}

impl BytePatch {
    /// The records, where they stand in this patch.
    pub fn view(&self) -> PatchView<'_>
        ensures { result ≡ self.now }
    {
        let mut patch = PatchView::new();
        patch.put(RecordId::Term(self.tty), RecordRef::Term(&self.terminal));
        put_row(&mut patch, &self.seen);
        put_row(&mut patch, &self.blanked);
        patch
    }
}

/// The patch that draws a byte on a terminal, 0 or 1, whose record and rows decode.
///
/// It sets the terminal's record, in which the byte is counted, and at most two rows: that in which the byte is seen,
/// and where the display scrolls the one that is blanked.
pub fn byte_patch<V: RecordView>(view: &V, tty: u32, byte: u8) -> BytePatch
    requires tty { tty < 2 }
    requires decodes { TerminalDecodes (V.records view.now) tty }
    ensures patch { IsPatch result }
    ensures sectors { All (λ item. SectorsAre (V.records view.now).map.sectors item.rec) result }
    ensures shows { DrawsByte (V.records view.now) tty byte result }
    ensures counts { let old = V.records view.now in
        IsCounted (old.terms tty) ((with_items old result).terms tty) byte }
    ensures only { All (λ item. IsOfTerminal tty item.id) result }
    ensures small { length result ≤ 3 }
    ensures quiet { IsFalse (is_seen byte) → byte ≢ 10 → length result ≡ 1 }
    ensures places { All (λ item. HasItsPlace item.id item.rec) result }
    ensures beside { StaysBeside tty (V.records view.now) (with_items (V.records view.now) result) }
    ensures still_decodes { TerminalDecodes (with_items (V.records view.now) result) tty }
{
    let terminal = view.term(tty).unwrap();
    let after = after_byte(&terminal, byte);
    let seen = seen_row(view, tty, &terminal, byte);
    let blanked = blanked_row(tty, &terminal, byte);
    BytePatch {
        tty,
        terminal: after,
        seen,
        blanked,
    }
}

// The display moves up by one row.
fn does_scroll(terminal: &TermRec, byte: u8) -> bool
    ensures { result ≡ scrolls terminal.now.row terminal.now.col byte }
{
    let ends_line = match byte {
        b'\n' => true,
        b' '..=b'~' => terminal.col == LAST_COL,
        _ => false,
    };
    terminal.row == LAST_ROW && ends_line
}

// The terminal's record after the byte.
#[tactic(auto, unfolding(ow_base::specs::Screen::drawn, ow_base::specs::Screen::printed, ow_base::specs::Screen::on_next_line))]
fn after_byte(terminal: &TermRec, byte: u8) -> TermRec
    requires { FitsTerm terminal.now }
    ensures counts { CountsByte terminal.now result byte }
    ensures top { result.top ≡ top_after terminal.now byte }
    ensures row { result.row ≡ (cursor_after terminal.now.row terminal.now.col byte).row }
    ensures col { result.col ≡ (cursor_after terminal.now.row terminal.now.col byte).col }
    ensures fits { FitsTerm result }
{
    let counted = TermRec {
        written: terminal.written.saturating_add(1),
        last: u32::from(byte),
        ..*terminal
    };
    match byte {
        b'\n' => on_next_line(&counted),
        b' '..=b'~' if counted.col == LAST_COL => on_next_line(&counted),
        b' '..=b'~' => TermRec {
            col: counted.col + 1,
            ..counted
        },
        b'\r' => TermRec { col: 0, ..counted },
        8 => TermRec {
            col: counted.col.saturating_sub(1),
            ..counted
        },
        _ => counted,
    }
}

// The terminal's record with the cursor in column 0 of the next line. Behind the last row the ring turns by one place.
fn on_next_line(terminal: &TermRec) -> TermRec
    requires { FitsTerm terminal.now }
    ensures last { terminal.now.row ≡ 23 → result ≡ record terminal.now { top = (terminal.now.top + 1) % 24; col = 0 } }
    ensures other { terminal.now.row ≢ 23 → result ≡ record terminal.now { row = terminal.now.row + 1; col = 0 } }
{
    if terminal.row == LAST_ROW {
        TermRec {
            top: (terminal.top + 1) % ROWS,
            col: 0,
            ..*terminal
        }
    } else {
        TermRec {
            row: terminal.row + 1,
            col: 0,
            ..*terminal
        }
    }
}

// The row of the cursor with the byte in it, where the byte is seen.
fn seen_row<V: RecordView>(view: &V, tty: u32, terminal: &TermRec, byte: u8) -> Option<RowRec>
    requires tty { tty < 2 }
    requires fits { FitsTerm terminal.now }
    requires decodes { TerminalDecodes (V.records view.now) tty }
    ensures row { let number = row_number tty terminal.now.top terminal.now.row in
        let found = (V.records view.now).rows number in
        result ≡ (if is_seen byte then with_byte found number terminal.now.col byte else Option.None) }
    ensures fits { IfSome result FitsRow }
{
    if !matches!(byte, b' '..=b'~') {
        return None;
    }
    let place = record_of_row(tty, terminal.top, terminal.row);
    let mut text = view.row(place).unwrap().text;
    text[terminal.col as usize] = byte;
    Some(RowRec { place, text })
}

// The row that is blank after the byte, where the display scrolls: the one that was on top is then the last.
fn blanked_row(tty: u32, terminal: &TermRec, byte: u8) -> Option<RowRec>
    requires tty { tty < 2 }
    requires fits { FitsTerm terminal.now }
    ensures row { let blank = blank_record (row_number tty terminal.now.top 0) in
        result ≡ (if scrolls terminal.now.row terminal.now.col byte then Option.Some blank else Option.None) }
    ensures fits { IfSome result FitsRow }
{
    if !does_scroll(terminal, byte) {
        return None;
    }
    Some(RowRec {
        place: record_of_row(tty, terminal.top, 0),
        text: BLANK_ROW,
    })
}

// Adds a row to the patch, where there is one.
fn put_row<'r>(patch: &mut PatchView<'r>, row: &'r Option<RowRec>)
    requires room { length patch.old < 6 }
    ensures { patch.new ≡ patch.old ++ row_items row.now }
{
    if let Some(row) = row {
        patch.put(RecordId::Row(row.place), RecordRef::Row(row));
    }
}
