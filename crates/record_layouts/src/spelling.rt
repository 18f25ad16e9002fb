//! What the layouts of all records share.

ghost use Rattle.std.specs.Prelude.{◌≡◌, ◌≤◌, ◌↔◌, length, slice_index, EachIndex, IsTrue};
ghost use Rattle.record_layouts.specs.Spelling.{AreZero, IsStatus};

// All words are 0.
fn all_zero(words: &[u32]) -> bool
    ensures { IsTrue result ↔ EachIndex words.now (λ k. slice_index words.now k ≡ 0) }
{
    words.iter().all(|word| *word == 0)
}

// The words from `first` up to `end`, without it, are 0.
pub(crate) fn are_zero(words: &[u32], first: usize, end: usize) -> bool
    requires order { first ≤ end }
    requires within { end ≤ length words.now }
    ensures { IsTrue result ↔ AreZero words.now first end }
{
    all_zero(&words[first..end])
}

// The word says how a process ended.
pub(crate) fn is_status(word: u32) -> bool
    ensures { IsTrue result ↔ IsStatus word }
{
    matches!(word, 0..=0xff | 0x101..=0x10f | 0x200..=0x20f | 0x300..=0x30f)
}
