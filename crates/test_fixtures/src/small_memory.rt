//! A small memory in which tests put records, and where these lie in it.

use ow_base::{WordSource, put_seal, seal};
use record_layouts::{ExitRec, INTENT_KIND, MemoryMap};
use std::alloc::{AllocError, Global};

/// An area from frame 1 on, its cache frames behind it, and then no user frames; the disk has no sectors.
pub const MAP: MemoryMap = MemoryMap {
    area_base: 1,
    cache_base: 65,
    pool_base: 129,
    user_frames: 0,
    sectors: 0,
};

/// How many frames an area has.
pub const AREA_FRAMES: u16 = 64;

// The words with which records of each kind begin.
pub const HEAD: u32 = 0x4845_4144;

pub const PROC: u32 = 0x5052_4f43;

pub const SIG: u32 = 0x5349_4753;

pub const DESC: u32 = 0x4f50_454e;

pub const FILE: u32 = 0x4649_4c45;

pub const CACHE: u32 = 0x4341_4348;

pub const TERM: u32 = 0x5445_524d;

pub const ROW: u32 = 0x524f_5753;

pub const EXIT: u32 = 0x4558_4954;

/// The numbers of words of an area: the process of slot 2, the records of terminals 0 and 1, the first row, the record
/// of pid 5 and of pid 256, the first owner, and the root table of slot 2 with its low table and its high one.
pub const PROC_2: usize = 1280;

pub const TERM_0: usize = 7680;

pub const TERM_1: usize = 7696;

pub const ROW_0: usize = 8192;

pub const OWNER_0: usize = 10240;

pub const EXIT_5: usize = 11280;

pub const ROOT_2: usize = 22528;

pub const LOW_2: usize = 23552;

pub const HIGH_2: usize = 24576;

/// Some frames, one behind the other, and nothing beside them.
#[derive(Drop)]
pub struct SmallMemory {
    first: u32,
    words: Vec<u32>,
}

impl SmallMemory {
    /// So many frames from the first on, whose words are 0.
    pub fn new(alloc: Global, first: u32, frames: u16) -> Result<SmallMemory, AllocError> {
        Ok(SmallMemory {
            first,
            words: vec![in alloc; 0u32; 1024 * usize::from(frames)]?,
        })
    }

    /// The words of its frames.
    pub fn words(&self) -> &[u32] {
        self.words.as_slice()
    }

    /// Sets the words from this number on, counted from the first frame on; words behind the last frame are let go.
    pub fn put(&mut self, number: usize, words: &[u32]) {
        for (place, word) in words.iter().enumerate() {
            if let Some(changed) = self.words.get_mut(number.wrapping_add(place)) {
                *changed = *word;
            }
        }
    }

    /// Seals a record of so many words that begins so and is 0 behind, and puts it in its place.
    pub fn put_record(&mut self, number: usize, count: usize, front: &[u32]) {
        let mut words = [0; 128];
        for (to, from) in words.iter_mut().zip(front) {
            *to = *from;
        }
        let count = count.clamp(2, 128);
        put_seal(&mut words[..count]);
        self.put(number, &words[..count]);
    }
}

impl WordSource for SmallMemory {
    ghost use Rattle.std.specs.Prelude.{◌+◌, ◌-◌, ◌*◌, nat_lt, if◌then◌else◌, None};
    ghost use Rattle.std.specs.List.{slice_get};

    ghost words = { λ m frame place.
        if nat_lt frame m.first then None else slice_get m.words.items (1024 * (frame - m.first) + place) };

    fn load(&self, frame: u32, word: u32) -> Option<u32> {
        if frame < self.first {
            return None;
        }
        let number = 1024 * (frame - self.first) as usize + word as usize;
        self.words.get(number).copied()
    }
}

/// Words that begin so and are 0 behind, with their seal.
pub fn sealed<const N: usize>(front: &[u32]) -> [u32; N] {
    let mut words = [0; N];
    for (to, from) in words.iter_mut().zip(front) {
        *to = *from;
    }
    if N >= 2 {
        put_seal(&mut words);
    }
    words
}

/// What became of pid 5, before an intent sets its record and after it.
pub const BEFORE: ExitRec = ExitRec { state: 1, value: 3 };

pub const AFTER: ExitRec = ExitRec { state: 2, value: 7 };

/// The payload of an intent that sets the record of pid 5 to `AFTER`, and the seal of an intent block of these words.
pub fn intent_of_5() -> ([u32; 7], u32) {
    let words = sealed::<4>(&[EXIT, 2, 7]);
    let payload = [11, 16, 4, words[0], words[1], words[2], words[3]];
    (payload, seal(seal(INTENT_KIND, &[7]), &payload))
}
