//! What holds of every area and its intent. The functions do nothing: their contracts are the laws.

ghost use Rattle.std.specs.Prelude.{◌≡◌, ℕ, ◌<◌, ◌+◌, ◌≤◌, Some, false, List};
ghost use Rattle.record_layouts.specs.Overlay.{Area, IsOpenIntent, WordRange, laid, may_change, open_ranges, overlay};

/// A payload is read as the ranges that it spells. So at most one intent is open in an area, and where a valid one is
/// open it is read.
#[tactic(auto, using(crate::proofs::Intents::open_ranges_of))]
pub const fn intents_are_read()
    ensures found { (area : Area) (ranges : List WordRange) → IsOpenIntent area ranges → open_ranges area ≡ Some ranges }
    ensures only { (area : Area) (ranges : List WordRange) → open_ranges area ≡ Some ranges → IsOpenIntent area ranges }
{}

/// Which intent is open is a matter of the intent block alone, which are the words 16 to 1,023.
pub const fn the_block_decides()
    ensures { (some other : Area) → ((number : ℕ) → 16 ≤ number → number < 1024 → some number ≡ other number)
        → open_ranges some ≡ open_ranges other }
{}

/// No intent changes a word that is not of the head, of frames 1 to 9 or of frame 11.
pub const fn other_words_stay()
    ensures { (area : Area) (number : ℕ) → may_change number (number + 1) ≡ false → overlay area number ≡ area number }
{}
