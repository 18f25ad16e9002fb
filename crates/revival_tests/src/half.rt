//! The frames of one kernel, in which tests put words.
ghost use Rattle.std.specs.Prelude.{◌≡◌, ◌+◌, ◌-◌, ◌*◌, ◌<◌, ◌≤◌, true, length, slice_set};
ghost use Rattle.kernel_builder.specs.Plan.{HasFrames};
ghost use Rattle.phys_memory.specs.Halves.{is_among, words_from};

use crate::random::Random;
use ow_base::{AreaId, put_seal};
use record_layouts::MemoryMap;
use std::alloc::{AllocError, Global};

/// The frames of the kernel that has an area: the area, the cache and the user frames, one behind the other.
#[derive(Drop)]
pub(crate) struct Half {
    first: u32,
    user_frames: u32,
    words: Vec<u32>,
    ghost low: { first ≤ 513 },
    ghost few: { user_frames ≤ 384 },
    ghost whole: { length words.items ≡ 1024 * (128 + user_frames) },
}

impl Half {
    /// The half of this area, with so many user frames, at most 384, and this word everywhere.
    pub(crate) fn filled(
        alloc: Global,
        area: AreaId,
        user_frames: u32,
        word: u32,
    ) -> Result<Half, AllocError>
        requires { user_frames ≤ 384 }
    {
        let first = match area {
            AreaId::A => 1,
            AreaId::B => 129 + user_frames,
        };
        let words = vec![in alloc; word; 1024 * (128 + user_frames as usize)]?;
        Ok(Half {
            first,
            user_frames,
            words,
        })
    }

    /// How many user frames it has.
    pub(crate) fn user_frames(&self) -> u32
        ensures is { result ≡ self.now.user_frames }
        ensures few { result ≤ 384 }
    {
        self.user_frames
    }

    /// Where its frames are in memory. The disk has no sectors.
    pub(crate) fn map(&self) -> MemoryMap
        ensures there { HasFrames (words_from self.now.first self.now.words.items) result }
        ensures frames { result.user_frames ≡ self.now.user_frames }
    {
        MemoryMap {
            area_base: self.first,
            cache_base: self.first + 64,
            pool_base: self.first + 128,
            user_frames: self.user_frames,
            sectors: 0,
        }
    }

    /// Its words, frame by frame.
    pub(crate) fn words(&self) -> &[u32] {
        self.words.as_slice()
    }

    /// The word of a frame by the frame's number in memory, at a place below 1,024.
    pub(crate) fn load(&self, frame: u32, word: u32) -> Option<u32>
        requires { word < 1024 }
        ensures { result ≡ words_from self.now.first self.now.words.items frame word }
    {
        if frame < self.first || frame - self.first >= 128 + self.user_frames {
            return None;
        }
        Some(self.words[(1024 * (frame - self.first) + word) as usize])
    }

    /// Sets the word of a frame that it has, at a place below 1,024.
    pub(crate) fn store(&mut self, frame: u32, word: u32, value: u32)
        requires word { word < 1024 }
        requires frame { is_among self.old.first self.old.words.items frame ≡ true }
        ensures words { self.new.words.items ≡ slice_set self.old.words.items (1024 * (frame - self.old.first) + word) value }
        ensures first { self.new.first ≡ self.old.first }
        ensures frames { self.new.user_frames ≡ self.old.user_frames }
    {
        self.words[(1024 * (frame - self.first) + word) as usize] = value;
    }

    /// Sets the word of this number, counted from the first frame on; a word behind the last frame is let go.
    pub(crate) fn set(&mut self, number: usize, word: u32) {
        if let Some(changed) = self.words.get_mut(number) {
            *changed = word;
        }
    }

    /// Sets all words to this one.
    pub(crate) fn fill(&mut self, word: u32) {
        self.words.as_mut_slice().fill(word);
    }

    /// Sets each word to another number.
    pub(crate) fn fill_with(&mut self, random: &mut Random) {
        for number in 0..self.words.len() {
            self.set(number, random.word());
        }
    }

    /// Puts a record of so many words, 2 to 128, that begins so and is 0 behind, with its seal.
    pub(crate) fn put_record(&mut self, number: usize, count: usize, front: &[u32]) {
        let mut words = [0; 128];
        for (to, from) in words.iter_mut().zip(front) {
            *to = *from;
        }
        let count = count.clamp(2, 128);
        put_seal(&mut words[..count]);
        for (place, word) in words[..count].iter().enumerate() {
            self.set(number.wrapping_add(place), *word);
        }
    }
}
