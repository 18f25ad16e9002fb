//! The record of an entry of the page cache.

ghost use Rattle.std.specs.Prelude.{◌≡◌, ◌≢◌, ℕ, ◌^◌, ◌<◌, ◌↔◌, List, slice_index, slice_set, IsTrue, IfSome, IfNone};
ghost use Rattle.record_layouts.specs.declared.cache.CacheRec.{CacheRec};
ghost use Rattle.record_layouts.specs.Cache.{IsCache, FitsCache, cache_in, is_dirty};

use crate::spelling::are_zero;
use ow_base::{is_sealed, put_seal};

const KIND: u32 = 0x4341_4348;

// The state of an entry whose page was written to.
const DIRTY: u32 = 2;

/// An entry of the page cache: which page of which file it holds.
///
/// `state` is 0 for an empty entry, 1 for a page as the disk has it and 2 for one that was written to. `file` is 0
/// to 31 and `page` 0 to 63; both are 0 in an empty entry.
#[derive(Clone, Copy, Debug, PartialEq, Eq)]
pub struct CacheRec {
    pub state: u32,
    pub file: u32,
    pub page: u32,
}

impl CacheRec {
    /// Its page was written to, and the disk does not have it so yet.
    pub fn is_dirty(&self) -> bool
        ensures { result ≡ is_dirty self.now }
    {
        self.state == DIRTY
    }

    // The fields are in their ranges.
    fn fits(&self) -> bool
        ensures { IsTrue result ↔ FitsCache self.now }
    {
        match self.state {
            0 => self.file == 0 && self.page == 0,
            1 | DIRTY => self.file <= 31 && self.page <= 63,
            _ => false,
        }
    }

    /// The words of the record. The fields are in their ranges.
    pub fn to_words(&self) -> [u32; 8]
        requires { FitsCache self.now }
        ensures { IsCache result self.now }
    {
        let mut words = [0; 8];
        words[0] = KIND;
        words[1] = self.state;
        words[2] = self.file;
        words[3] = self.page;
        put_seal(&mut words);
        words
    }

    /// The value whose record the words are. `None` comes where they are no record of a cache entry.
    pub fn from_words(words: &[u32; 8]) -> Option<CacheRec>
        ensures found { IfSome result (λ entry. IsCache words.now entry) }
        ensures none { IfNone result ((entry : CacheRec) → IsCache words.now entry → ⊥) }
        ensures read { result ≡ cache_in words.now }
    {
        let entry = CacheRec {
            state: words[1],
            file: words[2],
            page: words[3],
        };
        if words[0] == KIND && are_zero(words, 4, 7) && is_sealed(words) && entry.fits() {
            Some(entry)
        } else {
            None
        }
    }
}

/// A law; the function does nothing. Words are the record of one value at most, a value has one record, and
/// with one word changed to another it is the record of none.
pub const fn cache_entries_are_spelled_once()
    ensures value { (words : List ℕ) (a b : CacheRec) → IsCache words a → IsCache words b → a ≡ b }
    ensures words { (some others : List ℕ) (entry : CacheRec) → IsCache some entry → IsCache others entry → some ≡ others }
    ensures changed { (words : List ℕ) (entry : CacheRec) → IsCache words entry → (i value : ℕ) → i < 8 → value < 2 ^ 32
        → value ≢ slice_index words i → (other : CacheRec) → IsCache (slice_set words i value) other → ⊥ }
{}
