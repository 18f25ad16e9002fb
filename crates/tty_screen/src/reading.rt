//! Rows of a display, read from the records.
ghost use Rattle.std.specs.Prelude.{◌≡◌, ◌<◌, [], slice_index_or};
ghost use Rattle.ow_base.specs.Screen.{Screen};
ghost use Rattle.tty_screen.specs.Shown.{ShowsScreen, display_row};

use crate::ring::record_of_row;
use record_layouts::RecordView;

/// The 80 bytes of row `r` of a terminal's display, counted from the top of the display, which is row 0.
///
/// The terminal is 0 or 1, and `r` is below 24. `None` comes exactly where the terminal's record or the record of that
/// row does not decode.
pub fn screen_row<V: RecordView>(view: &V, tty: u32, r: u32) -> Option<[u8; 80]>
    requires tty { tty < 2 }
    requires row { r < 24 }
    ensures exact { result ≡ display_row (V.records view.now) tty r }
    ensures shown { (screen : Screen)
        → ShowsScreen (V.records view.now) tty screen → result ≡ Some (slice_index_or screen.rows r []) }
{
    let terminal = view.term(tty)?;
    let row = view.row(record_of_row(tty, terminal.top, r))?;
    Some(row.text)
}
