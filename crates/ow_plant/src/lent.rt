//! What of a plant a kernel that takes over may change.
ghost use Rattle.std.specs.Prelude.{◌≡◌, ℕ, ◌+◌, ◌-◌, ◌*◌, ◌^◌, ◌<◌, ◌≤◌, ◌↔◌, if◌then◌else◌, true, [], None, length, slice_set, IfOk, IsTrue, IsErr, OnOk, OnErr};
ghost use Rattle.phys_memory.specs.Halves.{is_among, own_half, with_own, words_from};
ghost use Rattle.phys_memory.specs.Memory.{words_of};
ghost use Rattle.ow_plant.specs.State.{blanked, painted, put_on, silent_device, with_cursor};
ghost use Rattle.ow_plant.specs.Lent.{lent_counted, lent_refused, lent_refuses, lent_tty, put_together, with_tty};
ghost use Rattle.ow_plant.specs.declared.refusal.Refusal.TheVariants.{Store};

use crate::displays::Display;
use crate::points::PanicPoints;
use crate::refusal::Refusal;
use crate::terminals::Tty;
use crate::user_memory::UserMemory;
use ow_base::{AreaId, Panicked};
use phys_memory::{Frames, Memory};
use std::alloc::{AllocError, Global};
use std::marker::Model;

/// What of a plant a kernel that takes over may change: the half of memory that is not live, the two terminals, the counts
/// of stores, and what was refused. The plant keeps it apart from all else, so that it can be lent by itself. Only the half
/// lies in memory, and not here, except from a panic's entry until another area is live.
///
/// Contracts see it as a `LentState`.
#[derive(Drop)]
pub struct Lent {
    own: Frames,
    tty0: Tty,
    tty1: Tty,
    /// The steps of a run. A terminal has room for 16 bytes a step.
    budget: u32,
    /// Stores in the trap that was begun last, at boot, or since a panic was entered.
    stores: u32,
    all_stores: u64,
    refusal: Option<Refusal>,
}

impl Model for Lent {
    ghost use Rattle.std.specs.Prelude.{◌≡◌, ◌*◌, ◌≤◌};
    ghost use Rattle.ow_plant.specs.Lent.{LentState};

    ghost Value = { LentState };

    ghost view = { λ l. record {
      own = l.own;
      tty0 = l.tty0;
      tty1 = l.tty1;
      budget = l.budget;
      stores = l.stores;
      all_stores = l.all_stores;
      refusal = l.refusal;
    } };

    ghost invariant = { λ l. (l.budget ≤ 2000000) × (l.tty0.room ≡ 16 * l.budget) × (l.tty1.room ≡ 16 * l.budget) };
}

impl Lent {
    /// No memory, and terminals with no room. It takes nothing from the allocator.
    pub(crate) fn none(alloc: Global) -> Lent
        ensures { result ≡ record { own = []; tty0 = silent_device 0; tty1 = silent_device 0; budget = 0; stores = 0; all_stores = 0; refusal = None } }
    {
        Lent {
            own: Frames::none(alloc),
            tty0: Tty::new(alloc),
            tty1: Tty::new(alloc),
            budget: 0,
            stores: 0,
            all_stores: 0,
            refusal: None,
        }
    }

    /// No memory, and terminals with room for 16 bytes a step of a budget. `AllocError` comes only for want of memory.
    pub(crate) fn with_budget(alloc: Global, budget: u32) -> Result<Lent, AllocError>
        requires { budget ≤ 2000000 }
        ensures { IfOk result (λ l. l ≡ record { own = []; tty0 = silent_device (16 * budget); tty1 = silent_device (16 * budget); budget = budget; stores = 0; all_stores = 0; refusal = None }) }
    {
        let room = 16 * budget as usize;
        let tty0 = Tty::with_room(alloc, room)?;
        let tty1 = Tty::with_room(alloc, room)?;
        Ok(Lent {
            own: Frames::none(alloc),
            tty0,
            tty1,
            budget,
            stores: 0,
            all_stores: 0,
            refusal: None,
        })
    }

    /// What holds of it always. The call does nothing.
    pub(crate) fn fits_budget(&self)
        ensures budget { self.now.budget ≤ 2000000 }
        ensures room0 { self.now.tty0.room ≡ 16 * self.now.budget }
        ensures room1 { self.now.tty1.room ≡ 16 * self.now.budget }
    {
        let _ = &self.budget;
    }

    /// Puts the words that lie apart in the place of the half of memory that is not `live`, and that half in theirs.
    pub(crate) fn exchange(&mut self, seen: &mut UserMemory, live: AreaId)
        ensures seen { seen.new ≡ record seen.old { memory = with_own seen.old.memory live self.old.own } }
        ensures own { self.new ≡ record self.old { own = own_half seen.old.memory live } }
    {
        seen.exchange(live, &mut self.own);
    }

    /// Does as `exchange` where a half of memory lies apart, and else nothing. A call before
    /// memory changes, and another after it, let all of it lie together meanwhile.
    #[inline(always)]
    pub(crate) fn exchange_if(&mut self, apart: bool, seen: &mut UserMemory, live: AreaId)
        ensures seen { seen.new ≡ record seen.old { memory = put_together apart seen.old.memory live self.old.own } }
        ensures own { self.new ≡ record self.old { own = if apart then own_half seen.old.memory live else self.old.own } }
    {
        if apart {
            self.exchange(seen, live);
        }
    }

    /// How many frames there are in the half that lies apart.
    pub(crate) fn frame_count(&self) -> usize
        ensures count { length self.now.own ≡ 1024 * result }
        ensures few { result < 2 ^ 54 }
    {
        self.own.count()
    }

    /// The word of a frame, where this half is put into memory.
    pub(crate) fn load_with(
        &self,
        memory: &Memory,
        live: AreaId,
        frame: u32,
        word: u32,
    ) -> Option<u32>
        requires { word < 1024 }
        ensures { result ≡ words_of (with_own memory.now live self.now.own) frame word }
    {
        memory.load_with(live, &self.own, frame, word)
    }

    /// Whether a frame is of this half, whose first frame has the number `first`.
    pub(crate) fn has_frame(&self, first: usize, frame: u32) -> bool
        ensures { result ≡ is_among first self.now.own frame }
    {
        self.own.has(first, frame)
    }

    /// The word of a frame of this half. `None` comes exactly where it is of another.
    pub(crate) fn load(&self, first: usize, frame: u32, word: u32) -> Option<u32>
        requires { word < 1024 }
        ensures { result ≡ words_from first self.now.own frame word }
    {
        self.own.load(first, frame, word)
    }

    /// Sets the word of a frame of this half.
    pub(crate) fn set_word(&mut self, first: usize, frame: u32, word: u32, value: u32)
        requires word { word < 1024 }
        requires frame { is_among first self.old.own frame ≡ true }
        ensures { self.new ≡ record self.old { own = slice_set self.old.own (1024 * (frame - first) + word) value } }
    {
        self.own.store(first, frame, word, value);
    }

    /// Whether a store is refused now, in this trap.
    fn refuses(&self, points: &PanicPoints, trap: u32) -> bool
        ensures { result ≡ lent_refuses points.now trap self.now }
    {
        self.refusal.is_some() || points.is_past(trap, self.stores)
    }

    /// Whether a refusal stands.
    pub(crate) fn refusal(&self) -> Option<Refusal>
        ensures { result ≡ self.now.refusal }
    {
        self.refusal
    }

    /// Refuses what was asked for, and every store from now on. A refusal that stands stays.
    pub(crate) fn refuse(&mut self, one: Refusal) -> Result<(), Panicked>
        ensures refuses { IsErr result }
        ensures stands { self.new ≡ lent_refused self.old one }
    {
        self.refusal = match self.refusal {
            Some(stands) => Some(stands),
            None => Some(one),
        };
        Err(Panicked)
    }

    /// Counts the store that is made next in this trap, or refuses it.
    pub(crate) fn count_store(&mut self, points: &PanicPoints, trap: u32) -> Result<(), Panicked>
        ensures exact { IsTrue (lent_refuses points.now trap self.old) ↔ IsErr result }
        ensures ok { OnOk result (self.new ≡ lent_counted self.old) }
        ensures err { OnErr result (self.new ≡ lent_refused self.old Store) }
    {
        if self.refuses(points, trap) {
            return self.refuse(Refusal::Store);
        }
        self.stores = self.stores.saturating_add(1);
        self.all_stores = self.all_stores.saturating_add(1);
        Ok(())
    }

    /// The stores made, since they were last counted from 0, and in all.
    pub(crate) fn stores(&self) -> (u32, u64)
        ensures made { result.0 ≡ self.now.stores }
        ensures all { result.1 ≡ self.now.all_stores }
    {
        (self.stores, self.all_stores)
    }

    /// Stores are counted from 0.
    pub(crate) fn begin_count(&mut self)
        ensures { self.new ≡ record self.old { stores = 0 } }
    {
        self.stores = 0;
    }

    /// A panic is entered: nothing is seen of the terminals, the refusal is over, and stores are counted from 0.
    pub(crate) fn panic(&mut self)
        ensures { self.new ≡ record self.old { tty0 = blanked self.old.tty0; tty1 = blanked self.old.tty1; stores = 0; refusal = None } }
    {
        self.tty0.blank();
        self.tty1.blank();
        self.begin_count();
        self.refusal = None;
    }

    /// Writes a byte on a terminal, 0 or 1, whose tape must have room.
    pub(crate) fn put(&mut self, tty: u32, byte: u8)
        requires { length (lent_tty self.old tty).tape < (lent_tty self.old tty).room }
        ensures { self.new ≡ with_tty self.old tty (put_on (lent_tty self.old tty) byte) }
    {
        if tty == 0 {
            self.tty0.put(byte);
        } else {
            self.tty1.put(byte);
        }
    }

    /// Sets all bytes of a row, below 24, that is seen of a terminal, 0 or 1.
    pub(crate) fn paint(&mut self, tty: u32, row: u32, text: &[u8; 80])
        requires { row < 24 }
        ensures { self.new ≡ with_tty self.old tty (painted (lent_tty self.old tty) row text.now) }
    {
        if tty == 0 {
            self.tty0.paint(row, text);
        } else {
            self.tty1.paint(row, text);
        }
    }

    /// Sets the cursor of a terminal, 0 or 1.
    pub(crate) fn set_cursor(&mut self, tty: u32, row: u32, col: u32)
        requires row { row < 24 }
        requires col { col < 80 }
        ensures { self.new ≡ with_tty self.old tty (with_cursor (lent_tty self.old tty) row col) }
    {
        if tty == 0 {
            self.tty0.set_cursor(row, col);
        } else {
            self.tty1.set_cursor(row, col);
        }
    }

    /// The bytes written on a terminal, 0 or 1.
    pub(crate) fn tape(&self, tty: u32) -> &[u8]
        ensures { result.now ≡ (lent_tty self.now tty).tape }
    {
        if tty == 0 {
            self.tty0.tape()
        } else {
            self.tty1.tape()
        }
    }

    /// How many bytes are written on a terminal, 0 or 1.
    pub(crate) fn count(&self, tty: u32) -> u32
        ensures { result ≡ length (lent_tty self.now tty).tape }
    {
        if tty == 0 {
            self.tty0.count()
        } else {
            self.tty1.count()
        }
    }

    /// What is seen of a terminal, 0 or 1.
    pub(crate) fn display(&self, tty: u32) -> &Display
        ensures { result.now ≡ (lent_tty self.now tty).display }
    {
        if tty == 0 {
            self.tty0.display()
        } else {
            self.tty1.display()
        }
    }
}
