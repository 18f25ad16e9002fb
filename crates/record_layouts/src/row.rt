//! The record of a row of a terminal.

ghost use Rattle.std.specs.Prelude.{◌≡◌, ◌≢◌, ℕ, ◌^◌, ◌<◌, List, slice_index, slice_set, IfSome, IfNone};
ghost use Rattle.record_layouts.specs.declared.row.RowRec.{RowRec};
ghost use Rattle.record_layouts.specs.Row.{FitsRow, IsRow, row_in};

use crate::packing::{pack, unpack};
use ow_base::{is_sealed, put_seal};

const KIND: u32 = 0x524f_5753;

// The rows of both terminals, 24 each.
const PLACES: u32 = 48;

/// A row of a terminal: `place` is 24 times the terminal and its index in the ring of rows, so 0 to 47, and `text`
/// has the bytes of its 80 cells.
#[derive(Clone, Copy, Debug, PartialEq, Eq)]
pub struct RowRec {
    pub place: u32,
    pub text: [u8; 80],
}

impl RowRec {
    /// The words of the record. The place is below 48.
    pub fn to_words(&self) -> [u32; 24]
        requires { FitsRow self.now }
        ensures { IsRow result self.now }
    {
        let mut words = [0; 24];
        words[0] = KIND;
        words[1] = self.place;
        pack(&mut words[2..22], &self.text);
        put_seal(&mut words);
        words
    }

    /// The row whose record the words are. `None` comes where they are no record of a row: of another kind, with a
    /// place past 47, a word that is not used and not 0, or a wrong seal.
    pub fn from_words(words: &[u32; 24]) -> Option<RowRec>
        ensures found { IfSome result (λ row. IsRow words.now row) }
        ensures none { IfNone result ((row : RowRec) → IsRow words.now row → ⊥) }
        ensures read { result ≡ row_in words.now }
    {
        if words[0] != KIND || words[1] >= PLACES || words[22] != 0 || !is_sealed(words) {
            return None;
        }
        let mut text = [0; 80];
        unpack(&words[2..22], &mut text);
        Some(RowRec {
            place: words[1],
            text,
        })
    }
}

/// A law; the function does nothing. Words are the record of one row at most, a row has one record, and with
/// one word changed to another it is the record of no row.
pub const fn rows_are_spelled_once()
    ensures value { (words : List ℕ) (a b : RowRec) → IsRow words a → IsRow words b → a ≡ b }
    ensures words { (some others : List ℕ) (row : RowRec) → IsRow some row → IsRow others row → some ≡ others }
    ensures changed { (words : List ℕ) (row : RowRec) → IsRow words row → (i value : ℕ) → i < 24 → value < 2 ^ 32
        → value ≢ slice_index words i → (other : RowRec) → IsRow (slice_set words i value) other → ⊥ }
{}
