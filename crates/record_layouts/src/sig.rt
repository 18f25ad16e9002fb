//! The record of a process's signals.

ghost use Rattle.std.specs.Prelude.{◌≡◌, ◌≢◌, ℕ, ◌^◌, ◌<◌, ◌↔◌, List, slice_index, slice_set, IsTrue, IfSome, IfNone};
ghost use Rattle.record_layouts.specs.declared.sig.SigRec.{SigRec};
ghost use Rattle.record_layouts.specs.Sig.{FitsSig, IsSig, sig_in};

use crate::spelling::are_zero;
use ow_base::{is_sealed, put_seal};

const KIND: u32 = 0x5349_4753;

/// The signals of a process.
///
/// `pending` has bit N set where signal N, 1 to 15, waits. `handlers` has the address of the handler of each signal
/// from 1 to 15, or 0.
#[derive(Clone, Copy, Debug, PartialEq, Eq)]
pub struct SigRec {
    pub pid: u32,
    pub pending: u32,
    pub handlers: [u32; 15],
}

impl SigRec {
    /// The words of the record. Only signals 1 to 15 wait.
    pub fn to_words(&self) -> [u32; 32]
        requires { FitsSig self.now }
        ensures { IsSig result self.now }
    {
        let mut words = [0; 32];
        words[0] = KIND;
        words[1] = self.pid;
        words[2] = self.pending;
        words[3..18].copy_from_slice(&self.handlers);
        put_seal(&mut words);
        words
    }

    /// The signals whose record the words are. `None` comes where they are no record of signals: of another kind,
    /// with a signal beside 1 to 15 waiting, a word that is not used and not 0, or a wrong seal.
    pub fn from_words(words: &[u32; 32]) -> Option<SigRec>
        ensures found { IfSome result (λ signals. IsSig words.now signals) }
        ensures none { IfNone result ((signals : SigRec) → IsSig words.now signals → ⊥) }
        ensures read { result ≡ sig_in words.now }
    {
        if words[0] != KIND || !are_zero(words, 18, 31) || !is_sealed(words) {
            return None;
        }
        let mut handlers = [0; 15];
        handlers.copy_from_slice(&words[3..18]);
        let signals = SigRec {
            pid: words[1],
            pending: words[2],
            handlers,
        };
        if signals.fits() { Some(signals) } else { None }
    }

    fn fits(&self) -> bool
        ensures { IsTrue result ↔ FitsSig self.now }
    {
        self.pending < 0x1_0000 && self.pending % 2 == 0
    }
}

/// A law; the function does nothing. Words are the record of the same signals always, the same signals have one
/// record, and with one word changed to another it is the record of no signals.
pub const fn signals_are_spelled_once()
    ensures value { (words : List ℕ) (a b : SigRec) → IsSig words a → IsSig words b → a ≡ b }
    ensures words { (some others : List ℕ) (signals : SigRec) → IsSig some signals → IsSig others signals → some ≡ others }
    ensures changed { (words : List ℕ) (signals : SigRec) → IsSig words signals → (i value : ℕ) → i < 32 → value < 2 ^ 32
        → value ≢ slice_index words i → (other : SigRec) → IsSig (slice_set words i value) other → ⊥ }
{}
