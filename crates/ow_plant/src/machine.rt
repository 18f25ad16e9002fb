//! The plant: processor, memory and terminals.
ghost use Rattle.std.specs.Prelude.{◌≡◌, ◌≢◌, if◌then◌else◌, ℕ, ◌+◌, ◌-◌, ◌*◌, ◌^◌, ◌<◌, ◌≤◌, ◌↔◌, true, false, [], None, Some, length, is_some, IsTrue, IsErr, IsNone, IfOk, IfSome, OnOk, OnErr};
ghost use Rattle.std.specs.Borrow.{sem};
ghost use Rattle.std.specs.List.{list_any};
ghost use Rattle.phys_memory.specs.Halves.{words_beside};
ghost use Rattle.phys_memory.specs.Reading.{words_read};
ghost use Rattle.phys_memory.specs.Memory.{frame_count, with_word, words_of, zeroed};
ghost use Rattle.ow_plant.specs.Points.{ArePoints, is_ahead, is_at, is_behind, is_missed, points_of};
ghost use Rattle.ow_plant.specs.declared.refusal.Refusal.TheVariants.{Leave, Store};
ghost use Rattle.panic_handover.specs.HandOver.{FitsHandOver, may_tell_registers, zero_bank};
ghost use Rattle.ow_plant.specs.Lent.{lent_at_first, lent_of};
ghost use Rattle.ow_plant.specs.Lending.{LendsOwn};
ghost use Rattle.ow_plant.specs.Owning.{IsPlaceIn, left_by, left_in};
ghost use Rattle.ow_base.specs.declared.machine.AreaId.TheVariants as AreaId;
ghost use Rattle.ow_plant.specs.State.{EntersPanic, IsArmed, IsReady, TakesUserTurn, handed_over, is_leave, is_refused, told_of, with_live, returned_to, entered, left_trap, refuses, refuses_leave, store_refused, leave_refused, counted, with_cursor_at, with_painted, with_put, with_stored, tty_of, now_of};

use crate::UserEnd;
use crate::dead_half::Dead;
use crate::displays::Display;
use crate::lent::Lent;
use crate::own_half::{Own, OwnPlace};
use crate::past::{Past, Told};
use crate::points::PanicPoints;
use crate::refusal::Refusal;
use crate::user_memory::UserMemory;
use ow_base::{
    AreaId, Bank, Came, FRAME_WORDS, KeyByte, Now, PanicRecord, Panicked, Point, Regs, Shape,
    WordSource,
};
use panic_handover::HandOver;
use phys_memory::Memory;
use rv32_user::{StepEnd, step};
use std::alloc::{AllocError, Global};
use std::marker::Model;

/// MODE of the register satp that turns Sv32 on (RISC-V manual, volume II).
const SV32: u32 = 1 << 31;

/// The words of a frame.
const FRAME_LENGTH: usize = FRAME_WORDS as usize;

/// The machine that a kernel runs on: memory, two terminals, the processor's registers, and counts of steps,
/// traps and stores.
///
/// A store of a kernel is one word of memory or one byte on a terminal. A machine may be armed with points, at each of
/// which a store is refused: from then on every store is refused.
///
/// Memory is frames of 1,024 words: the boot frame, and then two halves, each with 64 frames of area, 64
/// of cache and as many of pages as the shape says. A plant is made empty by `new` and gets its memory by
/// `arm`; after that no call allocates. Contracts see it as a `PlantState`.
#[derive(Drop)]
pub struct Plant {
    armed: bool,
    user_frames: u32,
    sectors: u32,
    quantum: u32,
    /// Memory; while `reviving`, with other frames in the place of the half that is not live, which then lies in `lent`.
    seen: UserMemory,
    bank: Bank,
    in_user: bool,
    user_pid: u32,
    slice: u32,
    /// The steps made and the traps begun. Each count stops at its last value.
    steps: u32,
    traps: u32,
    points: PanicPoints,
    reviving: bool,
    in_trap: bool,
    came: Came,
    trap_pid: u32,
    live: AreaId,
    past: Past,
    lent: Lent,
}

impl Model for Plant {
    ghost use Rattle.ow_plant.specs.Lent.{put_together};
    ghost use Rattle.ow_plant.specs.State.{PlantState, IsPlant};

    ghost Value = { PlantState };

    ghost view = { λ p. record {
      armed = p.armed;
      shape = record { user_frames = p.user_frames; sectors = p.sectors; quantum = p.quantum; budget = p.lent.budget };
      memory = put_together p.reviving p.seen.memory p.live p.lent.own;
      satp = p.seen.satp;
      bank = p.bank;
      in_user = p.in_user;
      user_pid = p.user_pid;
      slice = p.slice;
      tty0 = p.lent.tty0;
      tty1 = p.lent.tty1;
      steps = p.steps;
      traps = p.traps;
      points = p.points;
      reviving = p.reviving;
      stores = p.lent.stores;
      all_stores = p.lent.all_stores;
      refusal = p.lent.refusal;
      in_trap = p.in_trap;
      came = p.came;
      trap_pid = p.trap_pid;
      live = p.live;
      history = p.past.entries;
    } };

    ghost invariant = { λ p. IsPlant p.armed p.user_frames (put_together p.reviving p.seen.memory p.live p.lent.own) p.points p.reviving p.lent.stores p.lent.refusal p.traps p.past };
}

/// Memory with 0 in each word, and two silent terminals. `AllocError` comes only for want of memory.
fn blank_machine(alloc: Global, shape: Shape) -> Result<(UserMemory, Lent), AllocError>
    requires frames { shape.user_frames ≤ 384 }
    requires budget { shape.budget ≤ 2000000 }
    ensures memory { IfOk result (λ made. made.0.memory ≡ zeroed shape.user_frames) }
    ensures lent { IfOk result (λ made. made.1 ≡ lent_at_first shape) }
{
    let memory = Memory::new(alloc, shape.user_frames)?;
    let lent = Lent::with_budget(alloc, shape.budget)?;
    Ok((UserMemory { memory, satp: SV32 }, lent))
}

impl Plant {
    /// A plant with no memory, which is not armed.
    pub fn new(alloc: Global) -> Plant
        ensures idle { result.armed ≡ false }
        ensures no_frame { frame_count result.memory ≡ 0 }
        ensures points { result.points ≡ [] }
        ensures history { result.history ≡ [] }
    {
        let bank = Bank {
            pc: 0,
            regs: Regs::new(),
        };
        Plant {
            armed: false,
            user_frames: 0,
            sectors: 0,
            quantum: 0,
            seen: UserMemory {
                memory: Memory::without_frames(alloc),
                satp: SV32,
            },
            bank,
            in_user: false,
            user_pid: 0,
            slice: 0,
            steps: 0,
            traps: 0,
            points: PanicPoints::none(alloc),
            reviving: false,
            in_trap: false,
            came: Came::Kernel,
            trap_pid: 0,
            live: AreaId::A,
            past: Past::none(alloc),
            lent: Lent::none(alloc),
        }
    }

    /// Makes memory with `user_frames` frames for pages in each half, all zero, and two terminals with room
    /// for 16 bytes a step of the budget. Nothing is typed yet. The first store that a point refuses in its trap is
    /// the one behind so many as it says. For want of memory nothing changes.
    pub fn arm(
        &mut self,
        alloc: Global,
        shape: Shape,
        typed0: &[KeyByte],
        typed1: &[KeyByte],
        points: &[Point],
    ) -> Result<(), AllocError>
        requires idle { self.old.armed ≡ false }
        requires no_typed0 { typed0.now ≡ [] }
        requires no_typed1 { typed1.now ≡ [] }
        requires points { ArePoints points.now }
        requires frames { shape.user_frames ≤ 384 }
        requires some_quantum { 1 ≤ shape.quantum }
        requires quantum { shape.quantum ≤ 10000 }
        requires budget { shape.budget ≤ 2000000 }
        ensures ok { OnOk result (IsReady shape self.new) }
        ensures points { OnOk result (self.new.points ≡ points_of points.now) }
        ensures err { OnErr result (self.new ≡ self.old) }
    {
        let (seen, lent) = blank_machine(alloc, shape)?;
        let words = FRAME_LENGTH * (257 + 2 * shape.user_frames as usize);
        let past = Past::with_room(alloc, points.len(), words)?;
        let points = PanicPoints::of(alloc, points)?;
        self.armed = true;
        self.user_frames = shape.user_frames;
        self.sectors = shape.sectors;
        self.quantum = shape.quantum;
        self.seen = seen;
        self.in_user = false;
        self.steps = 0;
        self.traps = 0;
        self.points = points;
        self.reviving = false;
        self.in_trap = false;
        self.came = Came::Kernel;
        self.trap_pid = 0;
        self.live = AreaId::A;
        self.past = past;
        self.lent = lent;
        Ok(())
    }

    /// The word of a frame at a place below 1,024. The frame must be there.
    #[tactic(auto, unfolding(phys_memory::specs::Memory::words_of))]
    pub fn load(&self, frame: u32, word: u32) -> u32
        requires armed { self.now.armed ≡ true }
        requires word { word < 1024 }
        requires frame { frame < frame_count self.now.memory }
        ensures { words_of self.now.memory frame word ≡ Some result }
    {
        match self.word_at(frame, word) {
            Some(value) => value,
            None => unreachable!(),
        }
    }

    /// The word of a frame at a place below 1,024. `None` comes exactly where there is no such frame.
    fn word_at(&self, frame: u32, word: u32) -> Option<u32>
        requires word { word < 1024 }
        ensures { result ≡ words_of self.now.memory frame word }
    {
        if self.reviving {
            self.lent
                .load_with(self.seen.memory(), self.live, frame, word)
        } else {
            self.seen.memory().load(frame, word)
        }
    }

    /// Sets the word of a frame at a place below 1,024. The frame must be there. `Panicked` comes exactly where a
    /// refusal stands or a point of this trap has come; then no word changes, and the refusal stands.
    pub fn store(&mut self, frame: u32, word: u32, value: u32) -> Result<(), Panicked>
        requires armed { self.old.armed ≡ true }
        requires word { word < 1024 }
        requires frame { frame < frame_count self.old.memory }
        ensures exact { IsTrue (refuses self.old) ↔ IsErr result }
        ensures ok { OnOk result (self.new ≡ with_stored self.old frame word value) }
        ensures err { OnErr result (self.new ≡ store_refused self.old) }
    {
        self.count_store()?;
        self.set_word(frame, word, value);
        Ok(())
    }

    /// Sets the word of a frame that is there.
    fn set_word(&mut self, frame: u32, word: u32, value: u32)
        requires armed { self.old.armed ≡ true }
        requires word { word < 1024 }
        requires frame { frame < frame_count self.old.memory }
        ensures { self.new ≡ record self.old { memory = with_word self.old.memory frame word value } }
    {
        self.lent
            .exchange_if(self.reviving, &mut self.seen, self.live);
        self.seen.set_word(frame, word, value);
        self.lent
            .exchange_if(self.reviving, &mut self.seen, self.live);
    }

    /// Whether the end of the trap is refused now: then a point of it has come.
    fn refuses_leave(&self) -> bool
        ensures value { result ≡ refuses_leave self.now }
    {
        self.lent.refusal().is_some() || self.points.has(self.traps)
    }

    /// Counts the store that is made next, or refuses it.
    fn count_store(&mut self) -> Result<(), Panicked>
        ensures exact { IsTrue (refuses self.old) ↔ IsErr result }
        ensures ok { OnOk result (self.new ≡ counted self.old) }
        ensures err { OnErr result (self.new ≡ store_refused self.old) }
    {
        self.lent.count_store(&self.points, self.traps)
    }

    /// Makes what was stored in page tables count for what a program sees. There is no translation cache yet,
    /// so nothing is done.
    pub fn fence(&mut self)
        requires armed { self.old.armed ≡ true }
        ensures { self.new ≡ self.old }
    {}

    /// Loads the bank of a process, whose root table is in a frame below 2^22, and begins a slice in user
    /// mode.
    pub fn to_user(&mut self, pid: u32, bank: &Bank, root: u32)
        requires armed { self.old.armed ≡ true }
        requires root { root < 2 ^ 22 }
        ensures { self.new ≡ returned_to self.old pid bank.now root }
    {
        self.bank = *bank;
        self.seen.satp = SV32 + root;
        self.in_user = true;
        self.user_pid = pid;
        self.slice = 0;
    }

    /// Whether the processor is in user mode.
    pub fn in_user(&self) -> bool
        requires armed { self.now.armed ≡ true }
        ensures { result ≡ self.now.in_user }
    {
        self.in_user
    }

    /// The registers and the pc.
    pub fn bank(&self) -> &Bank
        requires armed { self.now.armed ≡ true }
        ensures { result.now ≡ self.now.bank }
    {
        &self.bank
    }

    /// The process that control went to last.
    pub fn user_pid(&self) -> u32
        requires armed { self.now.armed ≡ true }
        ensures { result ≡ self.now.user_pid }
    {
        self.user_pid
    }

    /// The steps made. The count stops at its last value.
    pub fn steps(&self) -> u32
        requires armed { self.now.armed ≡ true }
        ensures { result ≡ self.now.steps }
    {
        self.steps
    }

    /// The traps begun. The count stops at its last value.
    pub fn traps(&self) -> u32
        requires armed { self.now.armed ≡ true }
        ensures { result ≡ self.now.traps }
    {
        self.traps
    }

    /// The stores made in the trap that was begun last, and before the first at boot. The count stops at its last
    /// value.
    pub fn stores_made(&self) -> u32
        requires armed { self.now.armed ≡ true }
        ensures { result ≡ self.now.stores }
    {
        self.lent.stores().0
    }

    /// The stores made in all. The count stops at its last value.
    pub fn all_stores(&self) -> u64
        requires armed { self.now.armed ≡ true }
        ensures { result ≡ self.now.all_stores }
    {
        self.lent.stores().1
    }

    /// The area of the kernel that runs.
    pub fn live(&self) -> AreaId
        ensures { result ≡ self.now.live }
    {
        self.live
    }

    /// What a kernel knows of the machine now: the number of the trap that runs, and else of the coming one, at most
    /// the last value of the count; how many frames for pages and how many sectors there are. Nothing is typed yet.
    pub fn now(&self) -> Now
        ensures now { result ≡ now_of self.now }
        ensures fits { result.user_frames ≤ 384 }
    {
        let trap = if self.in_trap {
            self.traps
        } else {
            self.traps.saturating_add(1)
        };
        Now {
            trap,
            user_frames: self.user_frames,
            sectors: self.sectors,
            arrived: [0, 0],
            typed: [0, 0],
        }
    }

    /// What holds of every plant: one that has a frame is armed, and none has more than 384 frames for pages in a
    /// half; its budget is at most 2,000,000 steps, and each terminal has room for 16 bytes a step of it. The call does
    /// nothing; contracts above cite it.
    #[tactic(auto, unfolding(phys_memory::specs::Memory::words_of))]
    pub fn fits_shape(&self)
        ensures armed { (frame : ℕ) → (word : ℕ) → is_some (words_of self.now.memory frame word) ≡ true → self.now.armed ≡ true }
        ensures few_frames { self.now.shape.user_frames ≤ 384 }
        ensures few_steps { self.now.shape.budget ≤ 2000000 }
        ensures room { (tty : ℕ) → tty < 2 → (tty_of self.now tty).room ≡ 16 * self.now.shape.budget }
    {
        self.lent.fits_budget();
    }

    /// What holds of every plant on which no other kernel takes over: a refused store came behind exactly as many stores
    /// of the running trap as a point of it says, and a refused end of a trap behind at most so many. The call does
    /// nothing; contracts above cite it, since it is how the entry of a panic tells the store that was listed.
    ///
    /// It speaks of a refusal in the trap that was begun last. A trap that is begun while a refusal stands, or in place of
    /// the panic of another, misses that point; and at the last value of the count of traps many traps have one number.
    pub fn refusals_are_exact(&self)
        ensures store { self.now.reviving ≡ false → self.now.traps < 2 ^ 32 - 1 → list_any (is_missed self.now.traps) self.now.points ≡ false
            → self.now.refusal ≡ Some Store → list_any (is_at self.now.traps self.now.stores) self.now.points ≡ true }
        ensures leave { self.now.reviving ≡ false → self.now.traps < 2 ^ 32 - 1 → list_any (is_missed self.now.traps) self.now.points ≡ false
            → self.now.refusal ≡ Some Leave → list_any (is_ahead self.now.traps self.now.stores) self.now.points ≡ true }
        ensures none_behind { self.now.reviving ≡ false → list_any (is_behind self.now.traps self.now.stores) self.now.points ≡ false }
    {
        let _ = &self.points;
    }

    /// A turn of the process in user mode. After `quantum` instructions its slice is over, and nothing is
    /// done; else one instruction is made, on memory as its page tables show it. At a call and at a fault nothing changes.
    pub fn user_step(&mut self) -> UserEnd
        requires armed { self.old.armed ≡ true }
        requires in_user { self.old.in_user ≡ true }
        ensures turn { TakesUserTurn self.old self.new result }
        ensures pc { self.old.bank.pc < 2 ^ 32 }
    {
        if self.slice >= self.quantum {
            return UserEnd::Slice;
        }
        self.lent
            .exchange_if(self.reviving, &mut self.seen, self.live);
        let end = step(&mut self.bank.regs, &mut self.bank.pc, &mut self.seen);
        self.lent
            .exchange_if(self.reviving, &mut self.seen, self.live);
        match end {
            StepEnd::Next => {
                self.slice += 1;
                self.steps = self.steps.saturating_add(1);
                UserEnd::Next
            }
            StepEnd::Call => UserEnd::Call,
            StepEnd::Fault(fault) => UserEnd::Fault(fault),
        }
    }

    /// Begins the next trap, in which no store is made yet, of a process, or of none, which is 0. It counts a step unless
    /// it is the closing one.
    pub fn enter(&mut self, came: Came, pid: u32)
        requires armed { self.old.armed ≡ true }
        ensures { self.new ≡ entered self.old came pid }
    {
        self.in_user = false;
        self.in_trap = true;
        self.came = came;
        self.trap_pid = pid;
        self.traps = self.traps.saturating_add(1);
        self.lent.begin_count();
        match came {
            Came::Closing => {}
            Came::Kernel | Came::User | Came::Call => self.steps = self.steps.saturating_add(1),
        }
    }

    /// Ends the kernel's work for a trap. `Panicked` comes exactly where a refusal stands or a point of this trap has
    /// not come before; then the trap goes on, and the refusal stands. It is no store.
    pub fn leave(&mut self) -> Result<(), Panicked>
        requires armed { self.old.armed ≡ true }
        ensures exact { IsTrue (refuses_leave self.old) ↔ IsErr result }
        ensures ok { OnOk result (self.new ≡ left_trap self.old) }
        ensures err { OnErr result (self.new ≡ leave_refused self.old) }
    {
        if self.refuses_leave() {
            self.lent.refuse(Refusal::Leave)
        } else {
            self.in_trap = false;
            Ok(())
        }
    }

    /// Writes a byte on a terminal, 0 or 1, whose tape must have room. It is a store, and `Panicked` comes as from
    /// `store`; then no byte is written.
    pub fn put(&mut self, tty: u32, byte: u8) -> Result<(), Panicked>
        requires armed { self.old.armed ≡ true }
        requires which { tty < 2 }
        requires room { length (tty_of self.old tty).tape < (tty_of self.old tty).room }
        ensures exact { IsTrue (refuses self.old) ↔ IsErr result }
        ensures ok { OnOk result (self.new ≡ with_put self.old tty byte) }
        ensures err { OnErr result (self.new ≡ store_refused self.old) }
    {
        self.count_store()?;
        self.lent.put(tty, byte);
        Ok(())
    }

    /// Sets all bytes of a row, below 24, that is seen of a terminal, 0 or 1. It is a store, and `Panicked` comes as from
    /// `store`; then nothing changes that is seen.
    pub fn paint(&mut self, tty: u32, row: u32, text: &[u8; 80]) -> Result<(), Panicked>
        requires armed { self.old.armed ≡ true }
        requires which { tty < 2 }
        requires row { row < 24 }
        ensures exact { IsTrue (refuses self.old) ↔ IsErr result }
        ensures ok { OnOk result (self.new ≡ with_painted self.old tty row text.now) }
        ensures err { OnErr result (self.new ≡ store_refused self.old) }
    {
        self.count_store()?;
        self.lent.paint(tty, row, text);
        Ok(())
    }

    /// Sets the cursor of a terminal, 0 or 1, to a row below 24 and a column below 80. It is a store, and `Panicked` comes
    /// as from `store`; then the cursor stays.
    pub fn cursor(&mut self, tty: u32, row: u32, col: u32) -> Result<(), Panicked>
        requires armed { self.old.armed ≡ true }
        requires which { tty < 2 }
        requires row { row < 24 }
        requires col { col < 80 }
        ensures exact { IsTrue (refuses self.old) ↔ IsErr result }
        ensures ok { OnOk result (self.new ≡ with_cursor_at self.old tty row col) }
        ensures err { OnErr result (self.new ≡ store_refused self.old) }
    {
        self.count_store()?;
        self.lent.set_cursor(tty, row, col);
        Ok(())
    }

    /// The bytes written on a terminal, 0 or 1.
    pub fn tape(&self, tty: u32) -> &[u8]
        requires armed { self.now.armed ≡ true }
        requires which { tty < 2 }
        ensures { result.now ≡ (tty_of self.now tty).tape }
    {
        self.lent.tape(tty)
    }

    /// What is seen of a terminal, 0 or 1.
    pub fn display(&self, tty: u32) -> &Display
        requires armed { self.now.armed ≡ true }
        requires which { tty < 2 }
        ensures { result.now ≡ (tty_of self.now tty).display }
    {
        self.lent.display(tty)
    }

    /// What the processor came with into the trap that was begun last, where it came from a program.
    fn handed_bank(&self, pid: u32) -> Bank
        ensures bank { result ≡ (if may_tell_registers self.now.came pid then self.now.bank else zero_bank) }
        ensures kernel { self.now.came ≡ Came.Kernel → result ≡ zero_bank }
        ensures closing { self.now.came ≡ Came.Closing → pid ≡ 0 → result ≡ zero_bank }
    {
        let ran = match self.came {
            Came::Kernel => false,
            Came::User | Came::Call => true,
            Came::Closing => pid != 0,
        };
        if ran {
            self.bank
        } else {
            Bank {
                pc: 0,
                regs: Regs::new(),
            }
        }
    }

    /// What is handed over where a panic is entered now.
    fn handed_over(&self) -> HandOver
        ensures value { result ≡ handed_over self.now }
        ensures fits { FitsHandOver result }
    {
        let pid = if self.trap_pid <= 256 {
            self.trap_pid
        } else {
            0
        };
        HandOver {
            trap: self.traps,
            pid,
            came: self.came,
            bank: self.handed_bank(pid),
        }
    }

    /// What the record of a panic tells that is entered now.
    fn told(&self) -> Told
        ensures { result ≡ told_of self.now }
    {
        let at_leave = match self.lent.refusal() {
            Some(Refusal::Leave) => true,
            Some(Refusal::Store) | None => false,
        };
        Told {
            trap: self.traps,
            store: self.lent.stores().0,
            listed: self.points.listed_for(self.traps),
            at_leave,
            pid: self.handed_over().pid,
            area: self.live,
            tapes: [self.lent.count(0), self.lent.count(1)],
        }
    }

    /// Enters the panic of a kernel to which a store, or the end of a trap, was refused: the hand-over is written to the
    /// first words of memory, both displays are blanked, and the history takes a record of the panic with the words that
    /// memory then has. It takes no memory. The refusal is over then.
    #[tactic(auto, using(crate::proofs::Room::put_back))]
    pub fn panic_entry(&mut self)
        requires armed { IsArmed self.old }
        requires refused { is_refused self.old ≡ true }
        requires first { self.old.reviving ≡ false }
        ensures { EntersPanic self.old self.new }
    {
        let handed_over = self.handed_over();
        let told = self.told();
        self.seen.set_first(&handed_over.to_words());
        self.past.add(told, self.seen.memory());
        self.lent.exchange(&mut self.seen, self.live);
        self.lent.panic();
        self.points.enter(self.traps);
        self.in_user = false;
        self.in_trap = false;
        self.reviving = true;
    }

    /// Lends what a kernel that takes over needs, both at once: what the dead one left, only for reading, and its own half of
    /// memory, the terminals and their counts for stores. Until `set_live` answers `Ok` no other call lends memory for
    /// writing.
    ///
    /// When the loans are over, the plant is as it was, with what was lent as it was left.
    pub fn resurrection(&mut self) -> (Dead<'_>, Own<'_>)
        requires armed { self.old.armed ≡ true }
        requires reviving { self.old.reviving ≡ true }
        ensures* lends { sem 𝓛 (LendsOwn self.entry result.1) }
        ensures dead_words { words_read result.0.words ≡ words_beside self.old.memory self.old.live }
        ensures left { left_in result.0 ≡ left_by self.old }
        ensures own { result.1.lent.now ≡ lent_of self.old }
        ensures place { IsPlaceIn self.old result.1.place }
    {
        let area = self.live;
        let user_frames = self.user_frames;
        let sectors = self.sectors;
        let trap = self.traps;
        let own_frames = self.lent.frame_count();
        let count0 = self.lent.count(0);
        let count1 = self.lent.count(1);
        let first = self.seen.first_own(area);
        (
            Dead {
                words: self.seen.beside(area, own_frames),
                area,
                user_frames,
                sectors,
                count0,
                count1,
            },
            Own {
                lent: &mut self.lent,
                place: OwnPlace {
                    points: &self.points,
                    trap,
                    first,
                },
            },
        )
    }

    /// Makes the area live that is not, which ends what a panic began. It is a store, and `Panicked` comes as from
    /// `store`; then the area that was live still is.
    pub fn set_live(&mut self, area: AreaId) -> Result<(), Panicked>
        requires armed { self.old.armed ≡ true }
        requires reviving { self.old.reviving ≡ true }
        requires other { area ≢ self.old.live }
        ensures exact { IsTrue (refuses self.old) ↔ IsErr result }
        ensures ok { OnOk result (self.new ≡ with_live self.old area) }
        ensures err { OnErr result (self.new ≡ store_refused self.old) }
    {
        self.count_store()?;
        self.lent.exchange(&mut self.seen, self.live);
        self.live = area;
        self.reviving = false;
        Ok(())
    }

    /// The panics so far.
    pub fn history(&self) -> &[PanicRecord]
        ensures { result.now ≡ self.now.history }
    {
        self.past.entries()
    }
}

impl WordSource for Plant {
    ghost words = { λ p. words_of p.memory };

    fn load(&self, frame: u32, word: u32) -> Option<u32> {
        self.word_at(frame, word)
    }
}
