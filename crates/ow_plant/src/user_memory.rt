//! Memory as a program sees it.
ghost use Rattle.std.specs.Prelude.{◌≡◌, ℕ, ◌%◌, ◌/◌, ◌+◌, ◌^◌, ◌≤◌, ◌<◌};
ghost use Rattle.ow_base.specs.Sv32.{value_of, overwritten, fault_cause};
ghost use Rattle.ow_base.specs.UserStep.{fault_at, size_of};

use ow_base::{Access, AreaId, Fault, PageCause, Width, WordSource};
use phys_memory::{DeadWords, Frames, Memory};
use rv32_user::Space;
use std::marker::Model;
use sv32_tables::{Reached, reach};

/// Memory, and the register that names the page tables through which a program sees it.
#[derive(Drop)]
pub struct UserMemory {
    pub memory: Memory,
    /// MODE, which is Sv32, and the frame of the root table (RISC-V manual, volume II, the register satp).
    pub satp: u32,
}

impl Model for UserMemory {
    ghost use Rattle.std.specs.Prelude.{◌≡◌};
    ghost use Rattle.ow_base.specs.Words.{bits};
    ghost use Rattle.ow_plant.specs.State.{Seen};

    ghost Value = { Seen };

    ghost view = { λ m. record { memory = m.memory; satp = m.satp } };

    ghost invariant = { λ m. bits m.satp 31 1 ≡ 1 };
}

/// The exception that an access raises (RISC-V manual, volume II, table of causes).
fn fault(access: Access, cause: PageCause, va: u32) -> Fault
    ensures { result ≡ fault_at (fault_cause access cause) va }
{
    let cause = match (access, cause) {
        (Access::Fetch, PageCause::Page) => 12,
        (Access::Load, PageCause::Page) => 13,
        (Access::Store, PageCause::Page) => 15,
        (Access::Fetch, PageCause::Access) => 1,
        (Access::Load, PageCause::Access) => 5,
        (Access::Store, PageCause::Access) => 7,
    };
    Fault { cause, value: va }
}

/// What a word holds from byte `k` on.
fn from_byte(word: u32, k: u32) -> u32
    requires { k < 4 }
    ensures { result ≡ word / 256 ^ k }
{
    match k {
        0 => word,
        1 => word / 0x100,
        2 => word / 0x1_0000,
        _ => word / 0x100_0000,
    }
}

/// The value of a width that a word holds from byte `k` on, `k` being a multiple of the width.
fn value_of(word: u32, k: u32, width: Width) -> u32
    requires { k + size_of width ≤ 4 }
    ensures value { result ≡ value_of word k width }
    ensures fits { result < 256 ^ size_of width }
{
    match width {
        Width::Byte => from_byte(word, k) % 0x100,
        Width::Half => from_byte(word, k) % 0x1_0000,
        Width::Word => word,
    }
}

/// The word after the low bytes of a value are written from byte `k` on, `k` being a multiple of the width.
fn overwritten(word: u32, k: u32, width: Width, value: u32) -> u32
    requires within { k + size_of width ≤ 4 }
    requires aligned { k % size_of width ≡ 0 }
    ensures { result ≡ overwritten word k width value }
{
    let byte = value % 0x100;
    let half = value % 0x1_0000;
    match (width, k) {
        (Width::Byte, 0) => byte + word / 0x100 * 0x100,
        (Width::Byte, 1) => word % 0x100 + byte * 0x100 + word / 0x1_0000 * 0x1_0000,
        (Width::Byte, 2) => word % 0x1_0000 + byte * 0x1_0000 + word / 0x100_0000 * 0x100_0000,
        (Width::Byte, _) => word % 0x100_0000 + byte * 0x100_0000,
        (Width::Half, 0) => half + word / 0x1_0000 * 0x1_0000,
        (Width::Half, _) => word % 0x1_0000 + half * 0x1_0000,
        (Width::Word, _) => value,
    }
}

impl UserMemory {
    ghost use Rattle.std.specs.Prelude.{◌*◌, List, IfOk, length};
    ghost use Rattle.ow_base.specs.Sv32.{read_at, translated};
    ghost use Rattle.phys_memory.specs.Halves.{first_own, own_half, with_own, words_beside};
    ghost use Rattle.phys_memory.specs.Reading.{boot_words, words_read};
    ghost use Rattle.phys_memory.specs.Memory.{frame_count, words_of, with_first, with_word};

    /// All of memory.
    pub fn memory(&self) -> &Memory
        ensures { result.now ≡ self.now.memory }
    {
        &self.memory
    }

    /// Sets the word of a frame that is there, at a place below 1,024.
    pub fn set_word(&mut self, frame: u32, word: u32, value: u32)
        requires word { word < 1024 }
        requires frame { frame < frame_count self.old.memory }
        ensures { self.new ≡ record self.old { memory = with_word self.old.memory frame word value } }
    {
        self.memory.store(frame, word, value);
    }

    /// Puts other frames in the place of the half that is not `live`, and that half in theirs.
    pub fn exchange(&mut self, live: AreaId, half: &mut Frames)
        ensures memory { self.new ≡ record self.old { memory = with_own self.old.memory live half.old } }
        ensures half { half.new ≡ own_half self.old.memory live }
    {
        self.memory.exchange(live, half);
    }

    /// The number of the first frame of the half that is not `live`.
    pub fn first_own(&self, live: AreaId) -> usize
        ensures { result ≡ first_own self.now.memory live }
    {
        self.memory.first_own(live)
    }

    /// All words but those of the half that is not `live`, which has so many frames.
    pub fn beside(&self, live: AreaId, own_frames: usize) -> DeadWords<'_>
        requires few { own_frames < 2 ^ 54 }
        ensures words { (own : List ℕ) → length own ≡ 1024 * own_frames → words_read result ≡ words_beside (with_own self.now.memory live own) live }
        ensures boot { boot_words result ≡ self.now.memory.boot }
    {
        self.memory.beside(live, own_frames)
    }

    /// Sets the first 40 words of the boot frame, which must be there.
    pub fn set_first(&mut self, words: &[u32; 40])
        requires { 40 ≤ length self.old.memory.boot }
        ensures { self.new ≡ record self.old { memory = with_first self.old.memory words.now } }
    {
        self.memory.set_first(words);
    }

    /// The value of a width at an address that is a multiple of it, for a fetch or a load.
    #[inline(always)]
    fn read(&self, access: Access, va: u32, width: Width) -> Result<u32, Fault>
        requires { va % size_of width ≡ 0 }
        ensures value { result ≡ read_at (words_of self.now.memory) access width va (translated (words_of self.now.memory) self.now.satp va access) }
        ensures fits { IfOk result (λ value. value < 256 ^ size_of width) }
    {
        match reach(&self.memory, self.satp, va, access) {
            Ok(reached) => Ok(value_of(reached.word, reached.place.offset % 4, width)),
            Err(cause) => Err(fault(access, cause, va)),
        }
    }
}

impl Space for UserMemory {
    ghost use Rattle.ow_plant.specs.State.{Seen, seen_space};

    ghost Image = { Seen };

    ghost image = { λ m. m };

    ghost space = { seen_space };

    #[tactic(auto, unfolding(ow_base::specs::Sv32::sv32_space, crate::specs::State::seen_space))]
    fn fetch(&mut self, va: u32) -> Result<u32, Fault> {
        self.read(Access::Fetch, va, Width::Word)
    }

    #[tactic(auto, unfolding(ow_base::specs::Sv32::sv32_space, crate::specs::State::seen_space))]
    fn load(&mut self, va: u32, width: Width) -> Result<u32, Fault> {
        self.read(Access::Load, va, width)
    }

    #[tactic(auto, unfolding(ow_base::specs::Sv32::sv32_space, crate::specs::State::seen_space, phys_memory::specs::Memory::words_of))]
    fn store(&mut self, va: u32, width: Width, value: u32) -> Result<(), Fault> {
        let Reached { place, word } = match reach(&self.memory, self.satp, va, Access::Store) {
            Ok(reached) => reached,
            Err(cause) => return Err(fault(Access::Store, cause, va)),
        };
        let word = overwritten(word, place.offset % 4, width, value);
        self.memory.store(place.frame, place.offset / 4, word);
        Ok(())
    }
}
