//! The record of an open description.

ghost use Rattle.std.specs.Prelude.{◌≡◌, ◌≢◌, ℕ, ◌^◌, ◌<◌, ◌↔◌, List, slice_index, slice_set, IsTrue, IfSome, IfNone};
ghost use Rattle.record_layouts.specs.declared.desc.DescRec.{DescRec};
ghost use Rattle.record_layouts.specs.Desc.{IsDesc, FitsDesc, IsMode, desc_in, is_on_file, is_on_terminal};

use crate::spelling::are_zero;
use ow_base::{is_sealed, put_seal};

const KIND: u32 = 0x4f50_454e;

// What it is open on: a file or a terminal.
const FILE: u32 = 1;

const TERMINAL: u32 = 2;

/// An open description: what a descriptor of a process stands for.
///
/// `object` is 0 for a description that is not open, 1 for a file and 2 for a terminal. `index` is the number of
/// the file, 0 to 31, or of the terminal, 0 or 1. `mode` is 1 to read, 2 to write and 3 for both. `offset` is the
/// place in the file in bytes, and 0 on a terminal. All are 0 where nothing is open.
#[derive(Clone, Copy, Debug, PartialEq, Eq)]
pub struct DescRec {
    pub object: u32,
    pub index: u32,
    pub mode: u32,
    pub offset: u32,
}

impl DescRec {
    /// It is open on a file.
    pub fn is_on_file(&self) -> bool
        ensures { result ≡ is_on_file self.now }
    {
        self.object == FILE
    }

    /// It is open on a terminal.
    pub fn is_on_terminal(&self) -> bool
        ensures { result ≡ is_on_terminal self.now }
    {
        self.object == TERMINAL
    }

    // It is open to read, to write or for both.
    fn has_mode(&self) -> bool
        ensures { IsTrue result ↔ IsMode self.now.mode }
    {
        matches!(self.mode, 1..=3)
    }

    // The fields are in their ranges.
    fn fits(&self) -> bool
        ensures { IsTrue result ↔ FitsDesc self.now }
    {
        match self.object {
            0 => self.index == 0 && self.mode == 0 && self.offset == 0,
            FILE => self.index <= 31 && self.has_mode(),
            TERMINAL => self.index <= 1 && self.has_mode() && self.offset == 0,
            _ => false,
        }
    }

    /// The words of the record. The fields are in their ranges.
    pub fn to_words(&self) -> [u32; 16]
        requires { FitsDesc self.now }
        ensures { IsDesc result self.now }
    {
        let mut words = [0; 16];
        words[0] = KIND;
        words[1] = self.object;
        words[2] = self.index;
        words[3] = self.mode;
        words[4] = self.offset;
        put_seal(&mut words);
        words
    }

    /// The value whose record the words are. `None` comes where they are no record of a description.
    pub fn from_words(words: &[u32; 16]) -> Option<DescRec>
        ensures found { IfSome result (λ desc. IsDesc words.now desc) }
        ensures none { IfNone result ((desc : DescRec) → IsDesc words.now desc → ⊥) }
        ensures read { result ≡ desc_in words.now }
    {
        let desc = DescRec {
            object: words[1],
            index: words[2],
            mode: words[3],
            offset: words[4],
        };
        if words[0] == KIND && are_zero(words, 5, 15) && is_sealed(words) && desc.fits() {
            Some(desc)
        } else {
            None
        }
    }
}

/// A law; the function does nothing. Words are the record of one value at most, a value has one record, and
/// with one word changed to another it is the record of none.
pub const fn descriptions_are_spelled_once()
    ensures value { (words : List ℕ) (a b : DescRec) → IsDesc words a → IsDesc words b → a ≡ b }
    ensures words { (some others : List ℕ) (desc : DescRec) → IsDesc some desc → IsDesc others desc → some ≡ others }
    ensures changed { (words : List ℕ) (desc : DescRec) → IsDesc words desc → (i value : ℕ) → i < 16 → value < 2 ^ 32
        → value ≢ slice_index words i → (other : DescRec) → IsDesc (slice_set words i value) other → ⊥ }
{}
