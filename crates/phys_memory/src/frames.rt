//! Frames of words.
ghost use Rattle.std.specs.Prelude.{◌≡◌, ℕ, ◌+◌, ◌-◌, ◌*◌, ◌^◌, ◌<◌, ◌≤◌, true, [], ◌++◌, drop, IfOk, length, slice_index, slice_set};
ghost use Rattle.phys_memory.specs.Halves.{is_among, words_from};
ghost use Rattle.phys_memory.specs.Memory.{blank_frames};

use ow_base::FRAME_WORDS;
use std::alloc::{AllocError, Global};
use std::marker::Model;

/// The words of a frame.
const FRAME_LENGTH: usize = FRAME_WORDS as usize;

/// Frames of 1,024 words that lie one behind the other. Contracts see the list of their words.
#[derive(Drop)]
pub struct Frames {
    words: Vec<u32>,
}

impl Model for Frames {
    ghost use Rattle.std.specs.Prelude.{◌≡◌, ◌%◌, ℕ, List, length};

    ghost Value = { List ℕ };

    ghost view = { λ f. f.words.items };

    ghost invariant = { λ f. length f.words.items % 1024 ≡ 0 };
}

impl Frames {
    /// No frame; it takes no memory.
    pub fn none(alloc: Global) -> Frames
        ensures { result ≡ [] }
    {
        Frames {
            words: Vec::new(alloc),
        }
    }

    /// So many frames with 0 in each word.
    #[tactic(auto, unfolding(crate::specs::Memory::blank_frames))]
    pub(crate) fn zeroed(alloc: Global, count: usize) -> Result<Frames, AllocError>
        requires { count ≤ 1024 }
        ensures { IfOk result (λ f. f ≡ blank_frames count) }
    {
        let words = vec![in alloc; 0; FRAME_LENGTH * count]?;
        Ok(Frames { words })
    }

    /// How many frames there are.
    pub fn count(&self) -> usize
        ensures count { length self.now ≡ 1024 * result }
        ensures fits { length self.now < 2 ^ 64 }
    {
        self.words.len() / FRAME_LENGTH
    }

    /// The word of a frame, counted from the first of these, at a place below 1,024.
    pub(crate) fn word(&self, frame: usize, word: u32) -> u32
        requires frame { 1024 * frame < length self.now }
        requires word { word < 1024 }
        ensures { result ≡ slice_index self.now (1024 * frame + word) }
    {
        self.words[FRAME_LENGTH * frame + word as usize]
    }

    /// Whether a frame is among these, the first of which has the number `first`.
    pub fn has(&self, first: usize, frame: u32) -> bool
        ensures { result ≡ is_among first self.now frame }
    {
        let frame = frame as usize;
        frame >= first && frame - first < self.count()
    }

    /// The word of a frame at a place below 1,024, where the first of these has the number `first`. `None` comes exactly
    /// where the frame is not among them.
    pub fn load(&self, first: usize, frame: u32, word: u32) -> Option<u32>
        requires { word < 1024 }
        ensures { result ≡ words_from first self.now frame word }
    {
        if self.has(first, frame) {
            Some(self.word(frame as usize - first, word))
        } else {
            None
        }
    }

    /// Writes the word of a frame among these, the first of which has the number `first`, at a place below 1,024. No other
    /// word changes.
    pub fn store(&mut self, first: usize, frame: u32, word: u32, value: u32)
        requires word { word < 1024 }
        requires frame { is_among first self.old frame ≡ true }
        ensures { self.new ≡ slice_set self.old (1024 * (frame - first) + word) value }
    {
        self.set_word(frame as usize - first, word, value);
    }

    /// The words, frame by frame.
    pub(crate) fn words(&self) -> &[u32]
        ensures { result.now ≡ self.now }
    {
        self.words.as_slice()
    }

    /// Writes the first words of the first frame.
    pub(crate) fn set_first(&mut self, words: &[u32; 40])
        requires { 40 ≤ length self.old }
        ensures { self.new ≡ words.now ++ drop 40 self.old }
    {
        let (first, _) = self.words.as_mut_slice().split_at_mut(40);
        first.copy_from_slice(words);
    }

    /// Writes the word of a frame, counted from the first of these, at a place below 1,024.
    pub(crate) fn set_word(&mut self, frame: usize, word: u32, value: u32)
        requires frame { 1024 * frame < length self.old }
        requires word { word < 1024 }
        ensures { self.new ≡ slice_set self.old (1024 * frame + word) value }
    {
        self.words[FRAME_LENGTH * frame + word as usize] = value;
    }
}
