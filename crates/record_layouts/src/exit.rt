//! The record of what became of a pid.

ghost use Rattle.std.specs.Prelude.{◌≡◌, ◌≢◌, ℕ, ◌^◌, ◌<◌, ◌↔◌, List, slice_index, slice_set, IsTrue, IfSome, IfNone};
ghost use Rattle.record_layouts.specs.declared.exit.ExitRec.{ExitRec};
ghost use Rattle.record_layouts.specs.Exit.{IsExit, FitsExit, exit_in, tells_ended, tells_live};

use crate::spelling::is_status;
use ow_base::{is_sealed, put_seal};

const KIND: u32 = 0x4558_4954;

// The state of a pid whose process is live, and of one whose process has ended.
const LIVE: u32 = 1;

const ENDED: u32 = 2;

/// What became of a pid.
///
/// `state` is 0 for a pid that no process has had, 1 for a live process and 2 for one that has ended. `value` is 0,
/// the slot of the live process, 0 to 15, or the status word with which it ended.
#[derive(Clone, Copy, Debug, PartialEq, Eq)]
pub struct ExitRec {
    pub state: u32,
    pub value: u32,
}

impl ExitRec {
    /// The pid is that of a live process.
    pub fn is_live(&self) -> bool
        ensures { result ≡ tells_live self.now }
    {
        self.state == LIVE
    }

    /// The pid is that of a process that has ended.
    pub fn has_ended(&self) -> bool
        ensures { result ≡ tells_ended self.now }
    {
        self.state == ENDED
    }

    // The fields are in their ranges.
    fn fits(&self) -> bool
        ensures { IsTrue result ↔ FitsExit self.now }
    {
        match self.state {
            0 => self.value == 0,
            LIVE => self.value <= 15,
            ENDED => is_status(self.value),
            _ => false,
        }
    }

    /// The words of the record. The fields are in their ranges.
    pub fn to_words(&self) -> [u32; 4]
        requires { FitsExit self.now }
        ensures { IsExit result self.now }
    {
        let mut words = [0; 4];
        words[0] = KIND;
        words[1] = self.state;
        words[2] = self.value;
        put_seal(&mut words);
        words
    }

    /// The value whose record the words are. `None` comes where they are no record of an exit.
    pub fn from_words(words: &[u32; 4]) -> Option<ExitRec>
        ensures found { IfSome result (λ exit. IsExit words.now exit) }
        ensures none { IfNone result ((exit : ExitRec) → IsExit words.now exit → ⊥) }
        ensures read { result ≡ exit_in words.now }
    {
        let exit = ExitRec {
            state: words[1],
            value: words[2],
        };
        if words[0] == KIND && is_sealed(words) && exit.fits() {
            Some(exit)
        } else {
            None
        }
    }
}

/// A law; the function does nothing. Words are the record of one value at most, a value has one record, and
/// with one word changed to another it is the record of none.
pub const fn exits_are_spelled_once()
    ensures value { (words : List ℕ) (a b : ExitRec) → IsExit words a → IsExit words b → a ≡ b }
    ensures words { (some others : List ℕ) (exit : ExitRec) → IsExit some exit → IsExit others exit → some ≡ others }
    ensures changed { (words : List ℕ) (exit : ExitRec) → IsExit words exit → (i value : ℕ) → i < 4 → value < 2 ^ 32
        → value ≢ slice_index words i → (other : ExitRec) → IsExit (slice_set words i value) other → ⊥ }
{}
