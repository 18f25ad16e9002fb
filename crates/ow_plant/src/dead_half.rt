//! What a plant lends after a panic for reading.

use crate::dead_memory::{DeadMemory, hand_over_in};
use ow_base::{AreaId, WordSource};
use panic_handover::HandOver;
use phys_memory::DeadWords;

/// What a dead kernel left: the words of the boot frame and of its half, and what the machine tells beside them. It is only
/// read: nothing of it can be stored into.
#[derive(Drop)]
pub struct Dead<'a> {
    pub(crate) words: DeadWords<'a>,
    pub(crate) area: AreaId,
    pub(crate) user_frames: u32,
    pub(crate) sectors: u32,
    /// The bytes that the devices of terminal 0 and 1 had written when this was lent.
    pub(crate) count0: u32,
    pub(crate) count1: u32,
}

impl WordSource for Dead<'_> {
    ghost use Rattle.phys_memory.specs.Reading.{words_read};

    ghost words = { λ d. words_read d.words };

    fn load(&self, frame: u32, word: u32) -> Option<u32> {
        self.words.load(frame, word)
    }
}

/// The kernel whose panic was entered last. There is no disk yet.
impl DeadMemory for Dead<'_> {
    ghost use Rattle.ow_plant.specs.Owning.{left_in};

    ghost dead = { left_in };

    fn area(&self) -> AreaId {
        self.area
    }

    // No machine has more than 384; the field alone does not say so.
    fn user_frames(&self) -> u32 {
        self.user_frames.min(384)
    }

    fn sectors(&self) -> u32 {
        self.sectors
    }

    fn sector_word(&self, _n: u32, _word: u32) -> u32 {
        0
    }

    fn count(&self, tty: u32) -> u32 {
        if tty == 0 { self.count0 } else { self.count1 }
    }

    fn handover(&self) -> Option<HandOver> {
        hand_over_in(self.words.boot())
    }
}
