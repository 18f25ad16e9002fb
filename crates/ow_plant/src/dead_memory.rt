//! What a kernel that does not run any more has left, for one that reads it.
ghost use Rattle.std.specs.Prelude.{◌≡◌, ◌<◌, ◌≤◌, take};
ghost use Rattle.ow_base.specs.Sv32.{word_or_zero};
ghost use Rattle.panic_handover.specs.HandOver.{hand_over_in};
ghost use Rattle.ow_plant.specs.Dead.{frames_for_pages};

use crate::machine::Plant;
use ow_base::{AreaId, FRAME_WORDS, PanicRecord, WordSource};
use panic_handover::HandOver;

/// The memory of a kernel that does not run any more, and what the devices tell beside it.
///
/// Contracts see the words of memory, and as a `DeadState` all that is beside them.
pub trait DeadMemory: WordSource {
    ghost use Rattle.ow_plant.specs.Dead.{DeadState};

    ghost dead: { Self → DeadState };

    /// The area of the kernel.
    fn area(&self) -> AreaId
        ensures { result ≡ (dead self.now).area };

    /// How many frames for pages there are in its half, at most 384.
    fn user_frames(&self) -> u32
        ensures frames { result ≡ (dead self.now).user_frames }
        ensures few { result ≤ 384 };

    /// How many data sectors the disk has.
    fn sectors(&self) -> u32
        ensures { result ≡ (dead self.now).sectors };

    /// The word of a sector at a place below 1,024, or 0 where the disk has no such sector.
    fn sector_word(&self, n: u32, word: u32) -> u32
        requires { word < 1024 }
        ensures { result ≡ word_or_zero ((dead self.now).sector_words n word) };

    /// How many bytes the device of a terminal, 0 or 1, has written.
    fn count(&self, tty: u32) -> u32
        requires { tty < 2 }
        ensures { result ≡ (dead self.now).counts tty };

    /// What the kernel handed over when it panicked, if it did and its words spell it.
    fn handover(&self) -> Option<HandOver>
        ensures { result ≡ (dead self.now).handover };
}

/// A machine whose run is over. Its live area is read, and nothing was handed over.
impl DeadMemory for Plant {
    ghost use Rattle.ow_plant.specs.Dead.{state_of};

    ghost dead = { state_of };

    fn area(&self) -> AreaId {
        self.live()
    }

    fn user_frames(&self) -> u32 {
        self.now().user_frames
    }

    fn sectors(&self) -> u32 {
        self.now().sectors
    }

    fn sector_word(&self, _n: u32, _word: u32) -> u32 {
        0
    }

    fn count(&self, tty: u32) -> u32 {
        if WordSource::load(self, 0, 0).is_none() {
            return 0;
        }
        // A machine that has memory is armed, so that its tapes can be asked for.
        self.fits_shape();
        self.tape(tty).len().min(u32::MAX as usize) as u32
    }

    fn handover(&self) -> Option<HandOver> {
        None
    }
}

/// How many frames for pages memory of so many words has in each half: what is left of it beside the boot frame and the
/// 128 further frames of each half, and at most 384.
fn frames_for_pages(words: usize) -> u32
    ensures { result ≡ frames_for_pages words }
{
    let frames = (words / FRAME_WORDS as usize).saturating_sub(257) / 2;
    frames.min(384) as u32
}

/// A kernel as its panic left it: its disk is not kept yet.
impl DeadMemory for PanicRecord {
    ghost use Rattle.ow_plant.specs.Dead.{state_of_record};

    ghost dead = { state_of_record };

    fn area(&self) -> AreaId {
        self.area
    }

    fn user_frames(&self) -> u32 {
        frames_for_pages(self.image.items().len())
    }

    fn sectors(&self) -> u32 {
        0
    }

    fn sector_word(&self, _n: u32, _word: u32) -> u32 {
        0
    }

    fn count(&self, tty: u32) -> u32 {
        self.tapes[tty as usize]
    }

    fn handover(&self) -> Option<HandOver> {
        hand_over_in(self.image.items())
    }
}

/// What was handed over by the first 40 words of some. `None` comes where they are fewer, or spell no hand-over.
#[tactic(auto, unfolding(panic_handover::specs::HandOver::hand_over_in, panic_handover::specs::HandOver::are_hand_over))]
pub(crate) fn hand_over_in(words: &[u32]) -> Option<HandOver>
    ensures { result ≡ hand_over_in (take 40 words.now) }
{
    if words.len() < 40 {
        return None;
    }
    let mut first = [0; 40];
    first.copy_from_slice(&words[..40]);
    HandOver::from_words(&first)
}
