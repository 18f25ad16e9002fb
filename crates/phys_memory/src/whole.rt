//! Memory as a whole.
ghost use Rattle.std.specs.Prelude.{◌≡◌, ℕ, ◌*◌, ◌^◌, ◌<◌, ◌≤◌, ◌==◌, if◌then◌else◌, true, false, List, [], length, IfOk};
ghost use Rattle.std.specs.Borrow.{sem};
ghost use Rattle.std.specs.Vec.{vec_capacity};
ghost use Rattle.phys_memory.specs.Memory.{AreWholeFrames, frame_count, whole, words_of, with_first, with_word, zeroed};
ghost use Rattle.phys_memory.specs.Halves.{first_own, is_own, own_half, with_own, words_beside};
ghost use Rattle.phys_memory.specs.Lending.{LendsOwn};
ghost use Rattle.phys_memory.specs.Reading.{boot_words, words_read};

use crate::frames::Frames;
use crate::lent::{DeadWords, OwnWords};
use ow_base::{AreaId, WordSource};
use std::alloc::{AllocError, Global};
use std::marker::Model;
use std::mem;

/// The frames of a half before its user frames: 64 of the area and 64 of the cache.
const KERNEL_FRAMES: usize = 128;

/// The memory of a machine: the boot frame and the two halves, in one numbering of frames.
#[derive(Drop)]
pub struct Memory {
    boot: Frames,
    a: Frames,
    b: Frames,
}

impl Model for Memory {
    ghost use Rattle.phys_memory.specs.Memory.{MemoryParts};

    ghost Value = { MemoryParts };

    ghost view = { λ m. record { boot = m.boot; a = m.a; b = m.b } };
}

impl Memory {
    /// Memory that has no frame. It takes nothing from the allocator.
    pub fn without_frames(alloc: Global) -> Memory
        ensures { result ≡ record { boot = []; a = []; b = [] } }
    {
        Memory {
            boot: Frames::none(alloc),
            a: Frames::none(alloc),
            b: Frames::none(alloc),
        }
    }

    /// Memory with at most 384 user frames in each half, and 0 in each word. `AllocError` comes only for want of
    /// memory.
    pub fn new(alloc: Global, user_frames: u32) -> Result<Memory, AllocError>
        requires { user_frames ≤ 384 }
        ensures { IfOk result (λ m. m ≡ zeroed user_frames) }
    {
        let half = KERNEL_FRAMES + user_frames as usize;
        let boot = Frames::zeroed(alloc, 1)?;
        let a = Frames::zeroed(alloc, half)?;
        let b = Frames::zeroed(alloc, half)?;
        Ok(Memory { boot, a, b })
    }

    /// How many frames there are in all.
    pub fn frame_count(&self) -> usize
        ensures count { result ≡ frame_count self.now }
        ensures whole_frames { AreWholeFrames self.now }
    {
        self.boot.count() + self.a.count() + self.b.count()
    }

    /// Writes the word of a frame that is there, at a place below 1,024. No other word changes.
    #[tactic(auto, unfolding(crate::specs::Memory::with_word))]
    pub fn store(&mut self, frame: u32, word: u32, value: u32)
        requires word { word < 1024 }
        requires frame { frame < frame_count self.old }
        ensures { self.new ≡ with_word self.old frame word value }
    {
        let frame = frame as usize;
        let boot = self.boot.count();
        if frame < boot {
            self.boot.set_word(frame, word, value);
            return;
        }
        let frame = frame - boot;
        let a = self.a.count();
        if frame < a {
            self.a.set_word(frame, word, value);
        } else {
            self.b.set_word(frame - a, word, value);
        }
    }

    /// Writes the first 40 words of the boot frame, which must be there. No other word changes.
    pub fn set_first(&mut self, words: &[u32; 40])
        requires boot { 40 ≤ length self.old.boot }
        ensures { self.new ≡ with_first self.old words.now }
    {
        self.boot.set_first(words);
    }

    /// All words in the order of their numbers, in a vector that is empty and has room for them. It takes no memory.
    pub fn image_in(&self, room: Vec<u32>) -> Vec<u32>
        requires empty { room.items ≡ [] }
        requires room { length (whole self.now) ≤ vec_capacity room }
        ensures { result.items ≡ whole self.now }
    {
        let mut image = room;
        let _ = image.extend_from_slice(self.boot.words());
        let _ = image.extend_from_slice(self.a.words());
        let _ = image.extend_from_slice(self.b.words());
        image
    }

    /// Lends the half that is not `dead` for writing, and all the rest for reading, both at once.
    ///
    /// When the loans are over, memory is as it was, with that half as it was left.
    pub fn split(&mut self, dead: AreaId) -> (DeadWords<'_>, OwnWords<'_>)
        ensures* lends { sem 𝓛 (LendsOwn self.entry dead result.1) }
        ensures dead_words { words_read result.0 ≡ words_beside self.old dead }
        ensures own_words { result.1.words.now ≡ own_half self.old dead }
        ensures own_frames { result.1.first ≡ first_own self.old dead }
        ensures whole_frames { AreWholeFrames self.old }
    {
        match dead {
            AreaId::A => self.lend_b(),
            AreaId::B => self.lend_a(),
        }
    }

    /// Copies a frame over one of the half that is not `dead`, from the rest of memory, as a kernel does with the
    /// pages of a dead one. No other word changes.
    pub fn copy_frame(&mut self, dead: AreaId, from: u32, to: u32)
        requires from { from < frame_count self.old }
        requires from_rest { is_own self.old dead from ≡ false }
        requires to { is_own self.old dead to ≡ true }
        ensures words { (frame : ℕ) → (word : ℕ) → words_of self.new frame word ≡ words_of self.old (if frame == to then from else frame) word }
        ensures rest { self.new ≡ with_own self.old dead (own_half self.new dead) }
        ensures length { length (own_half self.new dead) ≡ length (own_half self.old dead) }
    {
        let (rest, own) = self.split(dead);
        let OwnWords { words, first } = own;
        let mut own = OwnWords { words, first };
        own.copy_frame(&rest, from, to);
    }

    /// Puts other frames in the place of the half that is not `dead`, and that half in theirs. It copies no word.
    pub fn exchange(&mut self, dead: AreaId, half: &mut Frames)
        ensures memory { self.new ≡ with_own self.old dead half.old }
        ensures half { half.new ≡ own_half self.old dead }
    {
        match dead {
            AreaId::A => mem::swap(&mut self.b, half),
            AreaId::B => mem::swap(&mut self.a, half),
        }
    }

    /// The word of a frame at a place below 1,024, where the half that is not `dead` is `own`. `None` comes exactly where
    /// there is no such frame.
    pub fn load_with(&self, dead: AreaId, own: &Frames, frame: u32, word: u32) -> Option<u32>
        requires { word < 1024 }
        ensures { result ≡ words_of (with_own self.now dead own.now) frame word }
    {
        match dead {
            AreaId::A => load_in(&self.boot, &self.a, own, frame, word),
            AreaId::B => load_in(&self.boot, own, &self.b, frame, word),
        }
    }

    /// The number of the first frame of the half that is not `dead`.
    pub fn first_own(&self, dead: AreaId) -> usize
        ensures { result ≡ first_own self.now dead }
    {
        match dead {
            AreaId::A => self.boot.count() + self.a.count(),
            AreaId::B => self.boot.count(),
        }
    }

    /// All words but those of the half that is not `dead`, which has so many frames.
    pub fn beside(&self, dead: AreaId, own_frames: usize) -> DeadWords<'_>
        requires few { own_frames < 2 ^ 54 }
        ensures words { (own : List ℕ) → length own ≡ 1024 * own_frames → words_read result ≡ words_beside (with_own self.now dead own) dead }
        ensures boot { boot_words result ≡ self.now.boot }
    {
        match dead {
            AreaId::A => self.beside_b(),
            AreaId::B => self.beside_a(own_frames),
        }
    }

    /// The boot frame and half A.
    fn beside_b(&self) -> DeadWords<'_>
        ensures words { (own : List ℕ) → words_read result ≡ words_beside (with_own self.now AreaId.A own) AreaId.A }
        ensures boot { boot_words result ≡ self.now.boot }
    {
        // Half A is whole frames, so that half B begins with one.
        let _ = self.a.count();
        DeadWords::new(&self.boot, &self.a, self.boot.count())
    }

    /// The boot frame and half B, where so many frames lie between them.
    fn beside_a(&self, own_frames: usize) -> DeadWords<'_>
        requires few { own_frames < 2 ^ 54 }
        ensures words { (own : List ℕ) → length own ≡ 1024 * own_frames → words_read result ≡ words_beside (with_own self.now AreaId.B own) AreaId.B }
        ensures boot { boot_words result ≡ self.now.boot }
    {
        DeadWords::new(&self.boot, &self.b, self.boot.count() + own_frames)
    }

    /// Lends half B for writing, and the rest for reading.
    fn lend_b(&mut self) -> (DeadWords<'_>, OwnWords<'_>)
        ensures* lends { sem 𝓛 (LendsOwn self.entry AreaId.A result.1) }
        ensures dead_words { words_read result.0 ≡ words_beside self.old AreaId.A }
        ensures own_words { result.1.words.now ≡ own_half self.old AreaId.A }
        ensures own_frames { result.1.first ≡ first_own self.old AreaId.A }
        ensures whole_frames { AreWholeFrames self.old }
    {
        let boot = self.boot.count();
        let first = self.frame_count() - self.b.count();
        (
            DeadWords::new(&self.boot, &self.a, boot),
            OwnWords {
                words: &mut self.b,
                first,
            },
        )
    }

    /// Lends half A for writing, and the rest for reading.
    fn lend_a(&mut self) -> (DeadWords<'_>, OwnWords<'_>)
        ensures* lends { sem 𝓛 (LendsOwn self.entry AreaId.B result.1) }
        ensures dead_words { words_read result.0 ≡ words_beside self.old AreaId.B }
        ensures own_words { result.1.words.now ≡ own_half self.old AreaId.B }
        ensures own_frames { result.1.first ≡ first_own self.old AreaId.B }
        ensures whole_frames { AreWholeFrames self.old }
    {
        let first = self.boot.count();
        let behind = self.frame_count() - self.b.count();
        (
            DeadWords::new(&self.boot, &self.b, behind),
            OwnWords {
                words: &mut self.a,
                first,
            },
        )
    }
}

impl WordSource for Memory {
    ghost words = { words_of };

    fn load(&self, frame: u32, word: u32) -> Option<u32> {
        load_in(&self.boot, &self.a, &self.b, frame, word)
    }
}

/// The word of a frame at a place below 1,024, in memory of these frames.
#[tactic(auto, unfolding(crate::specs::Memory::words_of))]
fn load_in(boot: &Frames, a: &Frames, b: &Frames, frame: u32, word: u32) -> Option<u32>
    requires { word < 1024 }
    ensures { result ≡ words_of (record { boot = boot.now; a = a.now; b = b.now }) frame word }
{
    let frame = frame as usize;
    let boot_count = boot.count();
    if frame < boot_count {
        return Some(boot.word(frame, word));
    }
    let frame = frame - boot_count;
    let a_count = a.count();
    if frame < a_count {
        return Some(a.word(frame, word));
    }
    let frame = frame - a_count;
    if frame < b.count() {
        Some(b.word(frame, word))
    } else {
        None
    }
}
