//! The record of the head of an area.

ghost use Rattle.std.specs.Prelude.{◌≡◌, ◌≢◌, ℕ, ◌^◌, ◌<◌, ◌↔◌, List, slice_index, slice_set, IsTrue, IfSome, IfNone};
ghost use Rattle.record_layouts.specs.declared.head.HeadRec.{HeadRec};
ghost use Rattle.record_layouts.specs.Head.{IsHead, FitsHead, head_in};

use crate::spelling::are_zero;
use ow_base::{is_sealed, put_seal};

const KIND: u32 = 0x4845_4144;

/// The head of an area: what the kernel that lives in it knows as a whole.
///
/// `layout` is 1. `served` is the trap that was done last, `last` the pid of the process that ran last, and
/// `next` the pid of the next process to be made, 1 to 257. `hand` is the cache entry, 0 to 63, from which the
/// next one to be emptied is looked for.
#[derive(Clone, Copy, Debug, PartialEq, Eq)]
pub struct HeadRec {
    pub layout: u32,
    pub served: u32,
    pub last: u32,
    pub next: u32,
    pub hand: u32,
}

impl HeadRec {
    // The fields are in their ranges.
    fn fits(&self) -> bool
        ensures { IsTrue result ↔ FitsHead self.now }
    {
        self.layout == 1 && 1 <= self.next && self.next <= 257 && self.hand <= 63
    }

    /// The words of the record. The fields are in their ranges.
    pub fn to_words(&self) -> [u32; 16]
        requires { FitsHead self.now }
        ensures { IsHead result self.now }
    {
        let mut words = [0; 16];
        words[0] = KIND;
        words[1] = self.layout;
        words[2] = self.served;
        words[3] = self.last;
        words[4] = self.next;
        words[5] = self.hand;
        put_seal(&mut words);
        words
    }

    /// The head whose record the words are. `None` comes where they are no record of a head.
    pub fn from_words(words: &[u32; 16]) -> Option<HeadRec>
        ensures found { IfSome result (λ head. IsHead words.now head) }
        ensures none { IfNone result ((head : HeadRec) → IsHead words.now head → ⊥) }
        ensures read { result ≡ head_in words.now }
    {
        let head = HeadRec {
            layout: words[1],
            served: words[2],
            last: words[3],
            next: words[4],
            hand: words[5],
        };
        if words[0] == KIND && are_zero(words, 6, 15) && is_sealed(words) && head.fits() {
            Some(head)
        } else {
            None
        }
    }
}

/// A law; the function does nothing. Words are the record of one head at most, a head has one record, and
/// with one word changed to another it is the record of no head.
pub const fn heads_are_spelled_once()
    ensures value { (words : List ℕ) (a b : HeadRec) → IsHead words a → IsHead words b → a ≡ b }
    ensures words { (some others : List ℕ) (head : HeadRec) → IsHead some head → IsHead others head → some ≡ others }
    ensures changed { (words : List ℕ) (head : HeadRec) → IsHead words head → (i value : ℕ) → i < 16 → value < 2 ^ 32
        → value ≢ slice_index words i → (other : HeadRec) → IsHead (slice_set words i value) other → ⊥ }
{}
