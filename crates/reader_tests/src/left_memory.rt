//! A memory in which tests put what a kernel has left.
ghost use Rattle.std.specs.Prelude.{◌≡◌, ◌≤◌};

use dead_reader::{DeadMemory, HandOver, WordSource};
use ow_base::AreaId;
use std::alloc::{AllocError, Global};
use test_fixtures::{AREA_FRAMES, SmallMemory};

/// How many data sectors the disk has.
pub(crate) const SECTORS: u32 = 8;

/// The 64 frames of the area of a kernel that does not run any more, and what was beside it. No other frame is there.
#[derive(Drop)]
pub(crate) struct LeftMemory {
    area: AreaId,
    user_frames: u32,
    words: SmallMemory,
    counts: [u32; 2],
    handed: Option<HandOver>,
    ghost few: { user_frames ≤ 384 },
}

/// The number of the first frame of an area.
pub(crate) fn first_frame(area: AreaId, user_frames: u32) -> u32
    requires { user_frames ≤ 384 }
{
    match area {
        AreaId::A => 1,
        AreaId::B => 129 + user_frames,
    }
}

impl LeftMemory {
    /// An area whose words are 0, in a half of so many user frames, at most 384. Nothing was handed over, and no device
    /// has written a byte.
    pub(crate) fn new(
        alloc: Global,
        area: AreaId,
        user_frames: u32,
    ) -> Result<LeftMemory, AllocError>
        requires { user_frames ≤ 384 }
    {
        Ok(LeftMemory {
            area,
            user_frames,
            words: SmallMemory::new(alloc, first_frame(area, user_frames), AREA_FRAMES)?,
            counts: [0; 2],
            handed: None,
        })
    }

    /// Tells how many bytes the devices of the terminals have written.
    pub(crate) fn write(&mut self, counts: [u32; 2]) {
        self.counts = counts;
    }

    /// Hands something over, or nothing.
    pub(crate) fn hand_over(&mut self, handed: Option<HandOver>) {
        self.handed = handed;
    }

    /// The words of the area.
    pub(crate) fn words(&self) -> &[u32] {
        self.words.words()
    }

    /// A word of the area by its number, 0 where there is none.
    pub(crate) fn word(&self, number: usize) -> u32 {
        self.words().get(number).copied().unwrap_or(0)
    }

    /// Sets a word of the area by its number.
    pub(crate) fn set(&mut self, number: usize, word: u32) {
        self.words.put(number, &[word]);
    }

    /// Sets words of the area that lie one behind the other, by the number of the first.
    pub(crate) fn put(&mut self, number: usize, words: &[u32]) {
        self.words.put(number, words);
    }

    /// Puts a record of so many words, at most 128, that begins so and is 0 behind, with its seal.
    pub(crate) fn put_record(&mut self, number: usize, count: usize, front: &[u32]) {
        self.words.put_record(number, count, front);
    }

    /// Seals the record of so many words, at most 128, that lies there.
    pub(crate) fn seal_again(&mut self, number: usize, count: usize) {
        let mut words = [0; 128];
        for (to, from) in words.iter_mut().zip(self.words().iter().skip(number)) {
            *to = *from;
        }
        self.words.put_record(number, count, &words);
    }
}

impl WordSource for LeftMemory {
    ghost words = { λ m. ⟦<SmallMemory as WordSource>⟧.words m.words };

    fn load(&self, frame: u32, word: u32) -> Option<u32> {
        self.words.load(frame, word)
    }
}

impl DeadMemory for LeftMemory {
    ghost use Rattle.std.specs.Prelude.{None, slice_index};

    ghost dead = { λ m. record {
      area = m.area;
      user_frames = m.user_frames;
      sectors = 8;
      sector_words = λ sector word. None;
      counts = λ tty. slice_index m.counts tty;
      handover = m.handed;
    } };

    fn area(&self) -> AreaId {
        self.area
    }

    fn user_frames(&self) -> u32 {
        self.user_frames
    }

    fn sectors(&self) -> u32 {
        SECTORS
    }

    fn sector_word(&self, _n: u32, _word: u32) -> u32 {
        0
    }

    fn count(&self, tty: u32) -> u32 {
        self.counts[tty as usize]
    }

    fn handover(&self) -> Option<HandOver> {
        self.handed
    }
}
