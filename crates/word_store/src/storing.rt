//! Memory whose words are stored one by one.
ghost use Rattle.std.specs.Prelude.{◌≡◌, ℕ, ◌*◌, ◌+◌, ◌/◌, ◌%◌, ◌<◌, ◌≤◌, true, OnOk, OnErr};
ghost use Rattle.ow_base.specs.Words.{updated};
ghost use Rattle.record_layouts.specs.Held.{beside};
ghost use Rattle.record_layouts.specs.Overlay.{HasArea, area_at};
ghost use Rattle.ow_plant.specs.declared.refusal.Refusal.TheVariants.{Store};
ghost use Rattle.word_store.specs.Stores.{KeepsUnstored};

use ow_base::{FRAME_WORDS, Panicked, WordSource};

/// Memory of which single words can be stored, each by a store that may be refused.
///
/// Contracts see its words and a rest, which no store changes. While `able` holds a store may be made; a refused one takes
/// it away, and `refusal` tells it. The rest tells by `may_refuse` whether a store may be refused at all. `made` counts
/// stores: where it is 0 none was made, and one store more is at most one more.
pub trait WordStore: WordSource {
    ghost use Rattle.std.specs.Prelude.{Bool, Option, is_some};
    ghost use Rattle.std.specs.Borrow.{GName};
    ghost use Rattle.ow_plant.specs.declared.refusal.Refusal.{Refusal};
    ghost use Rattle.word_store.specs.Stores.{with_word_at};

    ghost Rest: { Type 0 };

    ghost rest: { Self → Rest };

    ghost able: { Self → Bool };

    ghost refusal: { Self → Option Refusal };

    ghost made: { Self → ℕ };

    ghost place: { Self → GName };

    ghost may_refuse: { Rest → Bool };

    /// Stores a word that is there.
    fn store(&mut self, frame: u32, word: u32, value: u32) -> Result<(), Panicked>
        requires able { able self.old ≡ true }
        requires word { word < 1024 }
        requires there { is_some (Self.words self.old frame word) ≡ true }
        ensures ok { OnOk result (Self.words self.new ≡ with_word_at (Self.words self.old) frame word value) }
        ensures err { OnErr result (Self.words self.new ≡ Self.words self.old) }
        ensures rest { rest self.new ≡ rest self.old }
        ensures stays { OnOk result (able self.new ≡ true) }
        ensures cause { OnErr result (refusal self.new ≡ Some Store) }
        ensures unstored { KeepsUnstored (made self.old) (made self.new) (Self.words self.old) (Self.words self.new) }
        ensures counted { made self.new ≤ made self.old + 1 }
        ensures allowed { OnErr result (may_refuse (rest self.old) ≡ true) }
        ensures place { place self.new ≡ place self.old };
}

/// Stores the word of this number of the area that begins at frame `base`.
pub fn store_area<W: WordStore>(
    store: &mut W,
    base: u32,
    number: u32,
    value: u32,
) -> Result<(), Panicked>
    requires able { W.able store.old ≡ true }
    requires area { HasArea (W.words store.old) base }
    requires number { number < 65536 }
    ensures ok { OnOk result (area_at (W.words store.new) base ≡ updated (area_at (W.words store.old) base) number value) }
    ensures err { OnErr result (area_at (W.words store.new) base ≡ area_at (W.words store.old) base) }
    ensures there { HasArea (W.words store.new) base }
    ensures beside { beside base (W.words store.new) ≡ beside base (W.words store.old) }
    ensures rest { W.rest store.new ≡ W.rest store.old }
    ensures stays { OnOk result (W.able store.new ≡ true) }
    ensures cause { OnErr result (W.refusal store.new ≡ Some Store) }
    ensures unstored { KeepsUnstored (W.made store.old) (W.made store.new) (W.words store.old) (W.words store.new) }
    ensures counted { W.made store.new ≤ W.made store.old + 1 }
    ensures allowed { OnErr result (W.may_refuse (W.rest store.old) ≡ true) }
    ensures place { W.place store.new ≡ W.place store.old }
{
    store.store(base + number / FRAME_WORDS, number % FRAME_WORDS, value)
}
