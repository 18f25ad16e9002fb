//! The record of a terminal.

ghost use Rattle.std.specs.Prelude.{◌≡◌, ◌≢◌, ℕ, ◌^◌, ◌<◌, ◌↔◌, List, slice_index, slice_set, IsTrue, IfSome, IfNone};
ghost use Rattle.record_layouts.specs.declared.term.TermRec.{TermRec};
ghost use Rattle.record_layouts.specs.Term.{IsTerm, FitsTerm, term_in};

use crate::spelling::are_zero;
use ow_base::{is_sealed, put_seal};

const KIND: u32 = 0x5445_524d;

/// What the kernel knows of a terminal.
///
/// `tty` is 0 or 1. `written` counts the bytes written to it, of which `last` is the last one, 0 to 255, and
/// `consumed` the typed bytes that were read. `top` is the place in the ring of rows, 0 to 23, where the highest row
/// of its display stands. The cursor is in row `row`, 0 to 23, and column `col`, 0 to 79. `base` is what
/// `written` was when the display was reset last.
#[derive(Clone, Copy, Debug, PartialEq, Eq)]
pub struct TermRec {
    pub tty: u32,
    pub written: u32,
    pub last: u32,
    pub consumed: u32,
    pub top: u32,
    pub row: u32,
    pub col: u32,
    pub base: u32,
}

impl TermRec {
    // The fields are in their ranges.
    fn fits(&self) -> bool
        ensures { IsTrue result ↔ FitsTerm self.now }
    {
        let on_display = self.top <= 23 && self.row <= 23 && self.col <= 79;
        self.tty <= 1 && self.last <= 255 && on_display
    }

    /// The words of the record. The fields are in their ranges.
    pub fn to_words(&self) -> [u32; 16]
        requires { FitsTerm self.now }
        ensures { IsTerm result self.now }
    {
        let mut words = [0; 16];
        words[0] = KIND;
        words[1] = self.tty;
        words[2] = self.written;
        words[3] = self.last;
        words[4] = self.consumed;
        words[5] = self.top;
        words[6] = self.row;
        words[7] = self.col;
        words[8] = self.base;
        put_seal(&mut words);
        words
    }

    /// The value whose record the words are. `None` comes where they are no record of a terminal.
    pub fn from_words(words: &[u32; 16]) -> Option<TermRec>
        ensures found { IfSome result (λ term. IsTerm words.now term) }
        ensures none { IfNone result ((term : TermRec) → IsTerm words.now term → ⊥) }
        ensures read { result ≡ term_in words.now }
    {
        let term = TermRec {
            tty: words[1],
            written: words[2],
            last: words[3],
            consumed: words[4],
            top: words[5],
            row: words[6],
            col: words[7],
            base: words[8],
        };
        if words[0] == KIND && are_zero(words, 9, 15) && is_sealed(words) && term.fits() {
            Some(term)
        } else {
            None
        }
    }
}

/// A law; the function does nothing. Words are the record of one value at most, a value has one record, and
/// with one word changed to another it is the record of none.
pub const fn terminals_are_spelled_once()
    ensures value { (words : List ℕ) (a b : TermRec) → IsTerm words a → IsTerm words b → a ≡ b }
    ensures words { (some others : List ℕ) (term : TermRec) → IsTerm some term → IsTerm others term → some ≡ others }
    ensures changed { (words : List ℕ) (term : TermRec) → IsTerm words term → (i value : ℕ) → i < 16 → value < 2 ^ 32
        → value ≢ slice_index words i → (other : TermRec) → IsTerm (slice_set words i value) other → ⊥ }
{}
