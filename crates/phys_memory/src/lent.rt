//! The two halves of memory while one of them is lent for writing.
ghost use Rattle.std.specs.Prelude.{◌≡◌, ℕ, ◌+◌, ◌-◌, ◌*◌, ◌<◌, ◌==◌, if◌then◌else◌, true, is_some, length, slice_index, slice_set};
ghost use Rattle.phys_memory.specs.Halves.{is_among};
ghost use Rattle.phys_memory.specs.Reading.{boot_words, words_lent, words_read};

use crate::frames::Frames;
use ow_base::WordSource;

/// What is only read while the other half is written: the boot frame, and the half of a kernel that is dead.
///
/// Frames have their numbers in memory; the frames of the other half are not there.
#[derive(Drop)]
pub struct DeadWords<'a> {
    boot: &'a Frames,
    half: &'a Frames,
    first: usize,
}

impl<'a> DeadWords<'a> {
    /// The boot frame, and a half whose first frame has this number.
    pub(crate) fn new(boot: &'a Frames, half: &'a Frames, first: usize) -> DeadWords<'a>
        ensures boot { result.boot.now ≡ boot.now }
        ensures half { result.half.now ≡ half.now }
        ensures first { result.first ≡ first }
    {
        DeadWords { boot, half, first }
    }

    /// The words of the boot frame.
    pub fn boot(&self) -> &[u32]
        ensures { result.now ≡ boot_words self.now }
    {
        self.boot.words()
    }
}

impl WordSource for DeadWords<'_> {
    ghost words = { words_read };

    #[tactic(auto, unfolding(crate::specs::Reading::words_read))]
    fn load(&self, frame: u32, word: u32) -> Option<u32> {
        let frame = frame as usize;
        if frame < self.boot.count() {
            return Some(self.boot.word(frame, word));
        }
        if frame < self.first {
            return None;
        }
        let frame = frame - self.first;
        if frame < self.half.count() {
            Some(self.half.word(frame, word))
        } else {
            None
        }
    }
}

/// The half that is written, whose first frame has the number `first` in memory.
///
/// A caller that wants to know what memory is after the loan takes the value apart once, and builds it again of
/// the same two fields.
#[derive(Drop)]
pub struct OwnWords<'a> {
    pub words: &'a mut Frames,
    pub first: usize,
}

impl OwnWords<'_> {
    /// Whether a frame, by its number in memory, is one of this half.
    pub fn has_frame(&self, frame: u32) -> bool
        ensures { result ≡ is_among self.now.first self.now.words.now frame }
    {
        let frame = frame as usize;
        frame >= self.first && frame - self.first < self.words.count()
    }

    /// The word of a frame of this half, by the frame's number in memory, at a place below 1,024.
    pub fn load(&self, frame: u32, word: u32) -> u32
        requires word { word < 1024 }
        requires frame { is_among self.now.first self.now.words.now frame ≡ true }
        ensures { result ≡ slice_index self.now.words.now (1024 * (frame - self.now.first) + word) }
    {
        self.words.word(frame as usize - self.first, word)
    }

    /// Writes the word of a frame of this half, by the frame's number in memory, at a place below 1,024. No other
    /// word changes.
    pub fn store(&mut self, frame: u32, word: u32, value: u32)
        requires word { word < 1024 }
        requires frame { is_among self.old.first self.old.words.now frame ≡ true }
        ensures words { self.new.words.now ≡ slice_set self.old.words.now (1024 * (frame - self.old.first) + word) value }
        ensures first { self.new.first ≡ self.old.first }
        ensures place { self.new.words.ghost_name ≡ self.old.words.ghost_name }
    {
        let frame = frame as usize - self.first;
        self.words.set_word(frame, word, value);
    }

    /// Copies a frame that a source has over one of this half, by its number in memory. No other word changes.
    pub fn copy_frame<W: WordSource>(&mut self, source: &W, from: u32, to: u32)
        requires from { (word : ℕ) → word < 1024 → is_some (W.words source.now from word) ≡ true }
        requires to { is_among self.old.first self.old.words.now to ≡ true }
        ensures words { (frame : ℕ) → (word : ℕ) → word < 1024 → words_lent self.new frame word ≡ (if frame == to then W.words source.now from word else words_lent self.old frame word) }
        ensures length { length self.new.words.now ≡ length self.old.words.now }
        ensures first { self.new.first ≡ self.old.first }
        ensures place { self.new.words.ghost_name ≡ self.old.words.ghost_name }
    {
        for word in 0..1024 {
            if let Some(value) = source.load(from, word) {
                self.store(to, word, value);
            }
        }
    }
}
