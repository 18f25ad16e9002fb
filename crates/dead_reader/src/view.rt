//! The records and the processes that are left.
ghost use Rattle.std.specs.Prelude.{◌≡◌, ◌↔◌, ℕ, ◌+◌, ◌<◌, ◌≤◌, false, Some, None, Ok, IfSome, IfNone, IfOk, IfErr, slice_get};
ghost use Rattle.record_layouts.specs.declared.proc.ProcRec.{ProcRec};
ghost use Rattle.record_layouts.specs.Decode.{pid_in};
ghost use Rattle.record_layouts.specs.Halves.{half_map};
ghost use Rattle.record_layouts.specs.Left.{dead_proc};
ghost use Rattle.record_layouts.specs.Overlay.{area_at, may_change, overlay};
ghost use Rattle.record_layouts.specs.Reading.{records_of};
ghost use Rattle.dead_reader.specs.Cached.{dirty_by};
ghost use Rattle.dead_reader.specs.Left.{handed_of, records_left};
ghost use Rattle.dead_reader.specs.Losses.{bits_lost};
ghost use Rattle.dead_reader.specs.Processes.{IsDead, IsDecoded, IsUnreadable};
ghost use Rattle.dead_reader.specs.Terminals.{IsInFlight};

use crate::cached::dirty;
use crate::losses::bits_lost;
use crate::pids::pids_in_slots;
use crate::processes::{Unreadable, pid_in, process_left};
use crate::terminals::in_flight;
use ow_base::FRAME_WORDS;
use ow_plant::DeadMemory;
use record_layouts::{
    AreaView, CACHE_OWNERS, CacheRec, DeadProc, DescRec, ExitRec, FIRST_TABLE, FileRec, HeadRec,
    MemoryMap, OWNERS, ProcRec, RecordView, RowRec, SLOTS, SigRec, TABLES_OF_SLOT, TermRec,
    WordSource, other_words_stay,
};

/// The records that a kernel has left in its area, with a valid open intent laid over them, and the processes by them.
///
/// It answers over any words: no number of the dead is used before its range is tested, and no page is in two frames or
/// two pages in one.
#[derive(Drop)]
pub struct DeadView<'d, M: DeadMemory> {
    memory: &'d M,
    // Its area. It stands as long as the view, since the end of the open intent is found as it is made.
    area: AreaView<'d, M>,
    // The pid of each slot. It stands as long too, so that no answer reads the exit records again.
    pids: [Option<u32>; 16],
    ghost source: { area.source.now ≡ memory.now },
    ghost map: { area.map ≡ half_map (M.dead memory.now).area (M.dead memory.now).user_frames (M.dead memory.now).sectors },
    ghost noted: { (slot : ℕ) → slot < 16 → slice_get pids slot ≡ Some (pid_in (records_of area.map (M.words area.source.now)) slot) },
}

impl<'d, M: DeadMemory> DeadView<'d, M> {
    /// A view of the memory of a kernel.
    pub fn new(memory: &'d M) -> DeadView<'d, M>
        ensures { result.memory.now ≡ memory.now }
    {
        let map = MemoryMap::of_area(memory.area(), memory.user_frames(), memory.sectors());
        let area = AreaView::new(memory, map);
        let pids = pids_in_slots(&area);
        DeadView { memory, area, pids }
    }
}

impl<M: DeadMemory> DeadView<'_, M> {
    /// The pid that is live in a slot by the exit records, the least where there are several.
    pub fn pid_in(&self, slot: u32) -> Option<u32>
        ensures { result ≡ pid_in (records_left (M.dead self.now.memory.now) (M.words self.now.memory.now)) slot }
    {
        if slot < SLOTS {
            self.noted_pid(slot)
        } else {
            pid_in(self, slot)
        }
    }

    /// The process of a slot as the panic left it. `Ok(None)` comes exactly where no exit record is live in the slot,
    /// and an `Err` with the first part of the process that cannot be read where not all of them can.
    pub fn process(&self, slot: u32) -> Result<Option<DeadProc>, Unreadable>
        requires { slot < 16 }
        ensures none { result ≡ Ok None ↔ pid_in (records_left (M.dead self.now.memory.now) (M.words self.now.memory.now)) slot ≡ None }
        ensures found { IfOk result (λ told. IfSome told (IsDead (records_left (M.dead self.now.memory.now) (M.words self.now.memory.now)) (handed_of (M.dead self.now.memory.now).handover) slot)) }
        ensures each { (process : ProcRec) → IsDecoded (records_left (M.dead self.now.memory.now) (M.words self.now.memory.now)) slot process
            → result ≡ Ok (Some (dead_proc (records_left (M.dead self.now.memory.now) (M.words self.now.memory.now)) (handed_of (M.dead self.now.memory.now).handover) slot process)) }
        ensures unreadable { IfErr result (IsUnreadable (records_left (M.dead self.now.memory.now) (M.words self.now.memory.now)) slot) }
    {
        process_left(self, &self.memory.handover(), slot, self.noted_pid(slot))
    }

    /// The byte that the record of a terminal, 0 or 1, counts as its last and that the device has not written. It is
    /// `Some` exactly where the terminal's record and its rows decode, and the record counts one byte more than the
    /// device.
    pub fn in_flight(&self, tty: u32) -> Option<u8>
        requires { tty < 2 }
        ensures found { IfSome result (λ byte. IsInFlight (records_left (M.dead self.now.memory.now) (M.words self.now.memory.now)) tty ((M.dead self.now.memory.now).counts tty) byte) }
        ensures none { IfNone result ((byte : ℕ) → IsInFlight (records_left (M.dead self.now.memory.now) (M.words self.now.memory.now)) tty ((M.dead self.now.memory.now).counts tty) byte → ⊥) }
    {
        in_flight(self, tty, self.memory.count(tty))
    }

    /// What a process lost beside its core records: 1 where one of its descriptors is closed, 2 where a page of a
    /// descriptor's file may be lost, 4 where a descriptor's terminal does not decode, 8 where its signals do not, all
    /// added up. The process is the one that `process` answers for its slot.
    pub fn resources(&self, p: &DeadProc) -> u32
        requires { IsDead (records_left (M.dead self.now.memory.now) (M.words self.now.memory.now)) (handed_of (M.dead self.now.memory.now).handover) p.now.slot p.now }
        ensures { result ≡ bits_lost (records_left (M.dead self.now.memory.now) (M.words self.now.memory.now)) p.now.slot p.now.rec.descs }
    {
        bits_lost(self, p.slot, &p.rec.descs)
    }

    /// The file and the page of an entry of the cache that is dirty, if there is such a file and it keeps the page.
    pub fn dirty(&self, i: u32) -> Option<(u32, u32)>
        requires { i < 64 }
        ensures { result ≡ dirty_by (records_left (M.dead self.now.memory.now) (M.words self.now.memory.now)) ((records_left (M.dead self.now.memory.now) (M.words self.now.memory.now)).caches i) }
    {
        dirty(self, i)
    }
}

impl<M: DeadMemory> DeadView<'_, M> {
    // The pid that is live in a slot of a process.
    fn noted_pid(&self, slot: u32) -> Option<u32>
        requires { slot < 16 }
        ensures { result ≡ pid_in (records_left (M.dead self.now.memory.now) (M.words self.now.memory.now)) slot }
    {
        self.pids[slot as usize]
    }

    // The word of this number in the area, as memory has it.
    #[tactic(auto, unfolding(record_layouts::specs::Reading::records_of, record_layouts::specs::Reading::records_in))]
    fn own_word(&self, number: u32) -> u32
        requires { number < 65536 }
        ensures { result ≡ area_at (M.words self.now.memory.now) (half_map (M.dead self.now.memory.now).area (M.dead self.now.memory.now).user_frames (M.dead self.now.memory.now).sectors).area_base number }
    {
        let frame = self.area.area_base() + number / FRAME_WORDS;
        self.memory.load(frame, number % FRAME_WORDS).unwrap_or(0)
    }

    // The word of this number in the area, which no intent changes. So it is read as memory has it, at a cost that does
    // not depend on the ranges of an open intent.
    fn kept_word(&self, number: u32) -> u32
        requires number { number < 65536 }
        requires kept { may_change number (number + 1) ≡ false }
        ensures { result ≡ overlay (area_at (M.words self.now.memory.now) (half_map (M.dead self.now.memory.now).area (M.dead self.now.memory.now).user_frames (M.dead self.now.memory.now).sectors).area_base) number }
    {
        other_words_stay();
        self.own_word(number)
    }
}

impl<M: DeadMemory> WordSource for DeadView<'_, M> {
    ghost words = { λ v. M.words v.memory.now };

    fn load(&self, frame: u32, word: u32) -> Option<u32> {
        self.memory.load(frame, word)
    }
}

impl<M: DeadMemory> RecordView for DeadView<'_, M> {
    ghost use Rattle.record_layouts.specs.Halves.{half_map};
    ghost use Rattle.record_layouts.specs.Values.{are_values};
    ghost use Rattle.dead_reader.specs.Left.{records_left};

    ghost records = { λ v. records_left (M.dead v.memory.now) (M.words v.memory.now) };

    ghost values = { λ v. are_values (half_map (M.dead v.memory.now).area (M.dead v.memory.now).user_frames (M.dead v.memory.now).sectors) (M.words v.memory.now) };

    fn head(&self) -> Option<HeadRec> {
        self.area.head()
    }

    fn proc(&self, slot: u32) -> Option<ProcRec> {
        self.area.proc(slot)
    }

    fn sig(&self, slot: u32) -> Option<SigRec> {
        self.area.sig(slot)
    }

    fn desc(&self, i: u32) -> Option<DescRec> {
        self.area.desc(i)
    }

    fn file(&self, i: u32) -> Option<FileRec> {
        self.area.file(i)
    }

    fn cache(&self, i: u32) -> Option<CacheRec> {
        self.area.cache(i)
    }

    fn term(&self, tty: u32) -> Option<TermRec> {
        self.area.term(tty)
    }

    fn row(&self, i: u32) -> Option<RowRec> {
        self.area.row(i)
    }

    fn exit(&self, pid: u32) -> Option<ExitRec> {
        self.area.exit(pid)
    }

    #[tactic(auto, unfolding(record_layouts::specs::Reading::records_of, record_layouts::specs::Reading::records_in))]
    fn owner(&self, frame: u32) -> u32 {
        if frame < self.memory.user_frames() {
            self.kept_word(OWNERS + frame)
        } else {
            0
        }
    }

    #[tactic(auto, unfolding(record_layouts::specs::Reading::records_of, record_layouts::specs::Reading::records_in))]
    fn cache_owner(&self, i: u32) -> u32 {
        self.kept_word(CACHE_OWNERS + i)
    }

    #[tactic(auto, unfolding(record_layouts::specs::Reading::records_of, record_layouts::specs::Reading::records_in))]
    fn table_word(&self, slot: u32, table: u32, word: u32) -> u32 {
        self.kept_word(FRAME_WORDS * (FIRST_TABLE + TABLES_OF_SLOT * slot + table) + word)
    }

    fn area_base(&self) -> u32 {
        self.area.area_base()
    }

    fn cache_base(&self) -> u32 {
        self.area.cache_base()
    }

    fn pool_base(&self) -> u32 {
        self.area.pool_base()
    }
}
