//! The display of a terminal.
ghost use Rattle.std.specs.Prelude.{◌≡◌, ℕ, ◌<◌, [], ◌∷◌, ◌++◌, drop, length, slice_index_or, slice_set};
ghost use Rattle.ow_base.specs.Screen.{blank_row, blank_screen, on_next_line, printed, drawn};

use std::marker::Model;

const BLANK_ROW: [u8; 80] = [b' '; 80];

/// What a person sees of a terminal: 24 rows of 80 bytes, and a cursor.
///
/// Contracts see it as a `Screen`.
#[derive(Debug, Drop)]
pub struct Display {
    rows: [[u8; 80]; 24],
    row: u32,
    col: u32,
}

impl Model for Display {
    ghost use Rattle.std.specs.Prelude.{◌<◌};
    ghost use Rattle.ow_base.specs.Screen.{Screen};

    ghost Value = { Screen };

    ghost view = { λ d. record { rows = d.rows; row = d.row; col = d.col } };

    ghost invariant = { λ d. (d.row < 24) × (d.col < 80) };
}

impl Display {
    /// A blank display, its cursor at row 0 and column 0.
    #[tactic(auto, unfolding(ow_base::specs::Screen::blank_screen))]
    pub(crate) const fn new() -> Display
        ensures { result ≡ blank_screen }
    {
        Display {
            rows: [BLANK_ROW; 24],
            row: 0,
            col: 0,
        }
    }

    /// The 80 bytes of a row, below 24.
    pub fn row(&self, r: u32) -> &[u8]
        requires { r < 24 }
        ensures row { result.now ≡ slice_index_or self.now.rows r [] }
        ensures width { length result.now ≡ 80 }
        ensures shape { length self.now.rows ≡ 24 }
    {
        &self.rows[r as usize]
    }

    /// The row and the column of the cursor.
    pub fn at(&self) -> (u32, u32)
        ensures row { result.0 ≡ self.now.row }
        ensures col { result.1 ≡ self.now.col }
        ensures row_fits { self.now.row < 24 }
        ensures col_fits { self.now.col < 80 }
        ensures shape { length self.now.rows ≡ 24 }
    {
        (self.row, self.col)
    }

    /// Sets all bytes of a row, below 24. The cursor stays.
    pub(crate) fn paint(&mut self, row: u32, text: &[u8; 80])
        requires { row < 24 }
        ensures { self.new ≡ record self.old { rows = slice_set self.old.rows row text.now } }
    {
        self.rows[row as usize] = *text;
    }

    /// Sets the cursor to a row below 24 and a column below 80. No row changes.
    pub(crate) fn set_cursor(&mut self, row: u32, col: u32)
        requires row { row < 24 }
        requires col { col < 80 }
        ensures { self.new ≡ record self.old { row = row; col = col } }
    {
        self.row = row;
        self.col = col;
    }

    /// Draws a byte: 32 to 126 are seen, 8, 10 and 13 move the cursor, and others do nothing.
    #[tactic(auto, unfolding(ow_base::specs::Screen::drawn))]
    pub(crate) fn draw(&mut self, byte: u8)
        ensures { self.new ≡ drawn self.old byte }
    {
        match byte {
            b' '..=b'~' => self.print(byte),
            b'\n' => self.feed(),
            b'\r' => self.col = 0,
            8 => self.col = self.col.saturating_sub(1),
            _ => {}
        }
    }

    /// Sets a byte at the cursor, which goes right, or behind column 79 to the next line.
    #[tactic(auto, unfolding(ow_base::specs::Screen::printed))]
    fn print(&mut self, byte: u8)
        ensures { self.new ≡ printed self.old byte }
    {
        self.rows[self.row as usize][self.col as usize] = byte;
        if self.col == 79 {
            self.feed();
        } else {
            self.col += 1;
        }
    }

    /// The cursor goes to column 0 of the next line; behind row 23 all rows move up by one.
    #[tactic(auto, unfolding(ow_base::specs::Screen::on_next_line))]
    fn feed(&mut self)
        ensures { self.new ≡ on_next_line self.old }
    {
        if self.row == 23 {
            scroll(&mut self.rows);
        } else {
            self.row += 1;
        }
        self.col = 0;
    }
}

/// All rows move up by one, and the last is blank.
#[tactic(auto, using(crate::proofs::Rows::scrolled))]
fn scroll(rows: &mut [[u8; 80]; 24])
    ensures { rows.new ≡ drop 1 rows.old ++ blank_row ∷ [] }
{
    rows.copy_within(1.., 0);
    rows[23] = BLANK_ROW;
}
