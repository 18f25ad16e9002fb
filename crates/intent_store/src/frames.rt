//! Whole frames that are stored word by word.
ghost use Rattle.std.specs.Prelude.{◌≡◌, ℕ, ◌<◌, true, is_some, OnOk, OnErr};
ghost use Rattle.ow_base.specs.Sv32.{word_or_zero};
ghost use Rattle.word_store.specs.Stores.{KeepsUnstored, IsBegun, with_first};
ghost use Rattle.ow_plant.specs.declared.refusal.Refusal.TheVariants.{Store};

use ow_base::{FRAME_WORDS, Panicked, WordSource};
use word_store::WordStore;

/// Makes all words of a frame that is there 0, the first one first.
pub(crate) fn zero_frame<W: WordStore>(store: &mut W, frame: u32) -> Result<(), Panicked>
    requires able { W.able store.old ≡ true }
    requires there { (word : ℕ) → word < 1024 → is_some (W.words store.old frame word) ≡ true }
    ensures ok { OnOk result (W.words store.new ≡ with_first (W.words store.old) frame 1024 (λ w. 0)) }
    ensures err { OnErr result (IsBegun (W.words store.old) frame (λ w. 0) (W.words store.new)) }
    ensures rest { W.rest store.new ≡ W.rest store.old }
    ensures stays { OnOk result (W.able store.new ≡ true) }
    ensures cause { OnErr result (W.refusal store.new ≡ Some Store) }
    ensures unstored { KeepsUnstored (W.made store.old) (W.made store.new) (W.words store.old) (W.words store.new) }
    ensures allowed { OnErr result (W.may_refuse (W.rest store.old) ≡ true) }
    ensures place { W.place store.new ≡ W.place store.old }
{
    for word in 0..FRAME_WORDS {
        store.store(frame, word, 0)?;
    }
    Ok(())
}

/// Copies a frame that is there over one that is there, the first word first.
pub(crate) fn copy_frame<W: WordStore>(store: &mut W, from: u32, to: u32) -> Result<(), Panicked>
    requires able { W.able store.old ≡ true }
    requires there { (word : ℕ) → word < 1024 → is_some (W.words store.old to word) ≡ true }
    ensures ok { OnOk result (W.words store.new ≡ with_first (W.words store.old) to 1024 (λ w. word_or_zero (W.words store.old from w))) }
    ensures err { OnErr result (IsBegun (W.words store.old) to (λ w. word_or_zero (W.words store.old from w)) (W.words store.new)) }
    ensures rest { W.rest store.new ≡ W.rest store.old }
    ensures stays { OnOk result (W.able store.new ≡ true) }
    ensures cause { OnErr result (W.refusal store.new ≡ Some Store) }
    ensures unstored { KeepsUnstored (W.made store.old) (W.made store.new) (W.words store.old) (W.words store.new) }
    ensures allowed { OnErr result (W.may_refuse (W.rest store.old) ≡ true) }
    ensures place { W.place store.new ≡ W.place store.old }
{
    for place in 0..FRAME_WORDS {
        let value = word_at(store, from, place);
        store.store(to, place, value)?;
    }
    Ok(())
}

// The word of a frame, and 0 where it is not there.
fn word_at<W: WordStore>(store: &W, frame: u32, word: u32) -> u32
    requires { word < 1024 }
    ensures { result ≡ word_or_zero (W.words store.now frame word) }
{
    store.load(frame, word).unwrap_or(0)
}
