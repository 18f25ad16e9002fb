//! The two memories of a revival: one that is only read, and one whose stores are counted and may be refused.
use crate::half::Half;
use dead_reader::{DeadMemory, HandOver, WordSource};
use ow_base::{AreaId, Panicked};
use word_store::WordStore;

/// What a kernel left in half A, and what it handed over. Its devices have written nothing.
#[derive(Drop)]
pub(crate) struct DeadHalf {
    pub(crate) half: Half,
    pub(crate) handed: Option<HandOver>,
}

impl WordSource for DeadHalf {
    ghost use Rattle.phys_memory.specs.Halves.{words_from};

    ghost words = { λ m. words_from m.half.first m.half.words.items };

    fn load(&self, frame: u32, word: u32) -> Option<u32> {
        self.half.load(frame, word)
    }
}

impl DeadMemory for DeadHalf {
    ghost use Rattle.std.specs.Prelude.{None};
    ghost use Rattle.ow_base.specs.declared.machine.AreaId.TheVariants.{A};

    ghost dead = { λ m. record {
      area = A;
      user_frames = m.half.user_frames;
      sectors = 0;
      sector_words = λ sector word. None;
      counts = λ tty. 0;
      handover = m.handed;
    } };

    fn area(&self) -> AreaId {
        AreaId::A
    }

    fn user_frames(&self) -> u32 {
        self.half.user_frames()
    }

    fn sectors(&self) -> u32 {
        0
    }

    fn sector_word(&self, _n: u32, _word: u32) -> u32 {
        0
    }

    fn count(&self, _tty: u32) -> u32 {
        0
    }

    fn handover(&self) -> Option<HandOver> {
        self.handed
    }
}

/// The half in which a kernel is built.
///
/// So many stores are made and the next one is refused. Contracts of a `WordStore` see that a refusal stands then.
#[derive(Drop)]
pub(crate) struct OwnHalf<'a> {
    pub(crate) half: &'a mut Half,
    pub(crate) left: u64,
    pub(crate) made: u64,
    pub(crate) is_refused: bool,
}

impl WordSource for OwnHalf<'_> {
    ghost use Rattle.phys_memory.specs.Halves.{words_from};

    ghost words = { λ m. words_from m.half.now.first m.half.now.words.items };

    fn load(&self, frame: u32, word: u32) -> Option<u32> {
        self.half.load(frame, word)
    }
}

impl WordStore for OwnHalf<'_> {
    ghost use Rattle.std.specs.Prelude.{ℕ, true, Some, None, not, if◌then◌else◌};
    ghost use Rattle.ow_plant.specs.declared.refusal.Refusal.TheVariants.{Store};

    ghost Rest = { ℕ };

    ghost rest = { λ m. m.half.now.user_frames };

    ghost able = { λ m. not m.is_refused };

    ghost refusal = { λ m. if m.is_refused then Some Store else None };

    ghost made = { λ m. m.made };

    ghost place = { λ m. m.half.ghost_name };

    ghost may_refuse = { λ frames. true };

    fn store(&mut self, frame: u32, word: u32, value: u32) -> Result<(), Panicked> {
        if self.left == 0 {
            self.is_refused = true;
            return Err(Panicked);
        }
        self.left -= 1;
        self.made = self.made.saturating_add(1);
        self.half.store(frame, word, value);
        Ok(())
    }
}
