//! Bytes on the terminals of an area. What each patch and each row must be is worked out by hand.

ghost use Rattle.std.specs.Prelude.{◌<◌, ◌*◌, ◌+◌, ◌≡◌, true, is_some, IsTrue};
ghost use Rattle.tty_screen.specs.Shown.{TerminalDecodes};

use record_layouts::{
    AnyRec, AreaView, PatchItem, PatchPart, RecordId, RecordRef, RecordView, RowRec, TermRec,
};
use std::alloc::{AllocError, Global};
use std::test::Fail;
use test_fixtures::{AREA_FRAMES, MAP, ROW_0, SmallMemory, TERM, TERM_0, TERM_1};
use tty_screen::byte_patch;

// Both terminals are blank; the second has this top row, and its cursor is in this row and column.
fn terminals(alloc: Global, [top, row, col]: [u32; 3]) -> Result<SmallMemory, AllocError> {
    let mut memory = SmallMemory::new(alloc, MAP.area_base, AREA_FRAMES)?;
    memory.put_record(TERM_0, 16, &[TERM]);
    memory.put_record(TERM_1, 16, &[TERM, 1, 1000, 7, 5, top, row, col, 990]);
    for place in 0..48 {
        put_text(&mut memory, place, b"");
    }
    Ok(memory)
}

// A row begins with a text and has blanks behind it.
fn put_text(memory: &mut SmallMemory, place: u32, text: &[u8]) {
    let row = RowRec {
        place: place % 48,
        text: row_of(text),
    };
    memory.put(ROW_0 + 24 * (place % 48) as usize, &row.to_words());
}

// The row that begins with a text and has blanks behind it.
fn row_of(text: &[u8]) -> [u8; 80] {
    let mut row = [b' '; 80];
    for (cell, byte) in row.iter_mut().zip(text) {
        *cell = *byte;
    }
    row
}

// The terminal's record and its rows decode.
fn is_whole<V: RecordView>(view: &V, tty: u32) -> bool
    requires { tty < 2 }
    ensures { IsTrue result → TerminalDecodes (V.records view.now) tty }
{
    for place in 0..24 {
        if view.row(24 * tty + place).is_none() {
            return false;
        }
    }
    view.term(tty).is_some()
}

const AFTER: TermRec = TermRec {
    tty: 1,
    written: 1001,
    last: 65,
    consumed: 5,
    top: 22,
    row: 23,
    col: 0,
    base: 990,
};

const CELL_78: &[u8] =
    b"                                                                              A";

const LAST_CELL: &[u8] =
    b"                                                                               A";

// The top row, and the row and the column of the cursor; a byte; what these are then; and the rows that the patch sets.
const PATCHES: [([u32; 3], u8, [u32; 3], &[(u32, &[u8])]); 10] = [
    // The last row of the display is in front of its top row, and the next one is where the top row was.
    (
        [22, 23, 79],
        b'A',
        [23, 23, 0],
        &[(45, LAST_CELL), (46, b"")],
    ),
    (
        [23, 23, 79],
        b'A',
        [0, 23, 0],
        &[(46, LAST_CELL), (47, b"")],
    ),
    ([23, 23, 78], b'A', [23, 23, 79], &[(46, CELL_78)]),
    ([22, 1, 79], b'A', [22, 2, 0], &[(47, LAST_CELL)]),
    ([22, 23, 79], b'\n', [23, 23, 0], &[(46, b"")]),
    ([22, 22, 79], b'\n', [22, 23, 0], &[]),
    // Bytes that are not seen; a backspace goes up no line.
    ([22, 23, 79], b'\r', [22, 23, 0], &[]),
    ([22, 23, 79], 8, [22, 23, 78], &[]),
    ([22, 23, 0], 8, [22, 23, 0], &[]),
    ([22, 23, 79], 255, [22, 23, 79], &[]),
];

fn row_item(place: u32, text: &[u8]) -> PatchItem {
    PatchItem {
        id: RecordId::Row(place),
        rec: AnyRec::Row(RowRec {
            place,
            text: row_of(text),
        }),
    }
}

// What a part sets, where it is a terminal's record or a row.
fn item_of(part: &PatchPart<'_>) -> Option<PatchItem> {
    let rec = match part.rec {
        RecordRef::Term(terminal) => AnyRec::Term(*terminal),
        RecordRef::Row(row) => AnyRec::Row(*row),
        _ => return None,
    };
    Some(PatchItem { id: part.id, rec })
}

#[test]
fn patches_of_bytes(rt: HostRuntime) -> Result<(), Fail> {
    for (before, byte, [top, row, col], rows) in PATCHES {
        let memory = terminals(rt.alloc(), before)?;
        let view = AreaView::new(&memory, MAP);
        assert!(rt; is_whole(&view, 1));
        let drawn = byte_patch(&view, 1, byte);
        let patch = drawn.view();
        let term = TermRec {
            last: u32::from(byte),
            top,
            row,
            col,
            ..AFTER
        };
        let parts = patch.parts();
        let first = PatchItem {
            id: RecordId::Term(1),
            rec: AnyRec::Term(term),
        };
        assert_eq!(rt;
            parts.first().and_then(item_of),
            Some(first),
            "{before:?} {byte}"
        );
        let others = parts.iter().skip(1).map(item_of);
        assert!(rt;
            others.eq(rows.iter().map(|row| Some(row_item(row.0, row.1)))),
            "{before:?} {byte}"
        );
    }
    Ok(())
}
