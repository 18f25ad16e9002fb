//! The seal of a record, which a change of one word breaks.

ghost use Rattle.std.specs.Prelude.{◌≡◌, ◌≢◌, ℕ, ◌^◌, ◌<◌, ◌≤◌, ◌↔◌, List, length, slice_index, slice_set, IsTrue};
ghost use Rattle.ow_base.specs.Seals.{seal_from, AreWords, IsSealed, sealed};

/// The seal of a record with this kind word and, behind it, these words. The seal stands behind them and is
/// none of them.
///
/// It begins as the kind word. Each of the words turns it left by five bits and is then joined to it by an
/// exclusive or.
pub fn seal(kind: u32, words: &[u32]) -> u32
    ensures { result ≡ seal_from kind words.now }
{
    let mut seal = kind;
    for word in words {
        seal = seal.rotate_left(5) ^ *word;
    }
    seal
}

/// The last word is the seal of those before it. There are at least two words.
pub fn is_sealed(words: &[u32]) -> bool
    requires { 2 ≤ length words.now }
    ensures { IsTrue result ↔ IsSealed words.now }
{
    let last = words.len() - 1;
    words[last] == seal(words[0], &words[1..last])
}

/// Puts the seal of the words before it in place of the last word. There are at least two words.
pub fn put_seal(words: &mut [u32])
    requires { 2 ≤ length words.old }
    ensures seal { words.new ≡ sealed words.old }
    ensures fits { AreWords words.new }
{
    let last = words.len() - 1;
    words[last] = seal(words[0], &words[1..last]);
}

/// A law; the function does nothing. A sealed record of two or more words of which one is changed to another
/// is sealed no more, be it the kind word, the seal or a word between them.
pub const fn one_change_breaks_a_seal()
    ensures { (words : List ℕ) (i value : ℕ) → AreWords words → 2 ≤ length words → i < length words → value < 2 ^ 32
        → value ≢ slice_index words i → IsSealed words → IsSealed (slice_set words i value) → ⊥ }
{}
