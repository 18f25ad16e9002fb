//! Where the rows of a display stand among the row records.
ghost use Rattle.std.specs.Prelude.{◌≡◌, ◌<◌};
ghost use Rattle.tty_screen.specs.Shown.{row_number};

use record_layouts::ROWS;

/// The number of the record of a row of the display. `top` is the place of the top row in the ring.
pub(crate) fn record_of_row(tty: u32, top: u32, r: u32) -> u32
    requires tty { tty < 2 }
    requires top { top < 24 }
    requires row { r < 24 }
    ensures number { result ≡ row_number tty top r }
    ensures within { result < 48 }
{
    ROWS * tty + (top + r) % ROWS
}
