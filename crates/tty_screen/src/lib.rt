//! The screens of terminals, in the records of a kernel. The 24 row records of a terminal are a ring, of which its own
//! record names the place of the top row: so a display scrolls by one new top row and one row that is blanked.
#![tactic(auto)]

mod drawing;
mod laws;
mod reading;
mod ring;

pub use drawing::{BytePatch, byte_patch};
pub use laws::{
    blank_terminals_show_blank_screens, bytes_are_drawn_in_turn, one_screen_is_shown,
    other_screens_stay, shown_terminals_decode,
};
pub use reading::screen_row;
