//! The kernel that runs, on its plant.
ghost use Rattle.std.specs.Prelude.{◌≡◌, ◌<◌, true, None, length, IsTrue, IsErr, ◌↔◌, OnOk, OnErr};
ghost use Rattle.ow_plant.specs.State.{now_of, refuses, store_refused, tty_of, with_put};
ghost use Rattle.ow_plant.specs.declared.refusal.Refusal.TheVariants.{Store};
ghost use Rattle.phys_memory.specs.Memory.{words_of};
ghost use Rattle.record_layouts.specs.Reading.{FitsMap};
ghost use Rattle.intent_store.specs.Live.{IsUnstored, map_of};

use crate::commit::commit;
use crate::frames::{copy_frame, zero_frame};
use ow_base::{Now, Panicked, WordSource};
use ow_plant::Plant;
use record_layouts::{
    AreaView, CacheRec, DescRec, ExitRec, FileRec, HeadRec, MemoryMap, PatchView, ProcRec,
    RecordView, RowRec, SigRec, TermRec, Writer,
};
use word_store::WordStore;

// Where the frames of the kernel are that runs on a plant.
fn live_map(plant: &Plant) -> MemoryMap
    ensures map { result ≡ map_of plant.now }
    ensures fits { FitsMap result }
{
    let now = plant.now();
    MemoryMap::of_area(plant.live(), now.user_frames, now.sectors)
}

/// The records of the kernel that runs on a plant, for one that only reads: those of the live area.
pub fn live_records(plant: &Plant) -> AreaView<'_, Plant>
    ensures source { result.source.now ≡ plant.now }
    ensures map { result.map ≡ map_of plant.now }
{
    AreaView::new(plant, live_map(plant))
}

/// The records of the kernel that runs on a plant, and the stores that change them. Its area is the live one.
#[derive(Drop)]
pub struct Live<'p> {
    plant: &'p mut Plant,
}

impl<'p> Live<'p> {
    /// The kernel that runs on this plant.
    pub fn new(plant: &'p mut Plant) -> Live<'p>
        ensures same_reference { result.plant.ghost_name ≡ plant.entry.ghost_name }
        ensures plant { result.plant.now ≡ plant.old }
    {
        Live { plant }
    }
}

impl Live<'_> {
    /// Writes a byte on a terminal, 0 or 1, whose tape must have room. It is a store of the plant, and changes no word.
    pub fn put(&mut self, tty: u32, byte: u8) -> Result<(), Panicked>
        requires armed { self.old.plant.now.armed ≡ true }
        requires which { tty < 2 }
        requires room { length (tty_of self.old.plant.now tty).tape < (tty_of self.old.plant.now tty).room }
        ensures exact { IsTrue (refuses self.old.plant.now) ↔ IsErr result }
        ensures ok { OnOk result (self.new.plant.now ≡ with_put self.old.plant.now tty byte) }
        ensures err { OnErr result (self.new.plant.now ≡ store_refused self.old.plant.now) }
        ensures cause { OnErr result (self.old.plant.now.refusal ≡ None → self.new.plant.now.refusal ≡ Some Store) }
        ensures unstored { IsUnstored self.old.plant.now self.new.plant.now }
        ensures same_reference { self.new.plant.ghost_name ≡ self.old.plant.ghost_name }
    {
        self.plant.put(tty, byte)
    }

    /// What the kernel knows of the machine now.
    pub fn now(&self) -> Now
        ensures { result ≡ now_of self.now.plant.now }
    {
        self.plant.now()
    }

    // Where its frames are.
    fn map(&self) -> MemoryMap
        ensures map { result ≡ map_of self.now.plant.now }
        ensures fits { FitsMap result }
    {
        live_map(&*self.plant)
    }

    fn view(&self) -> AreaView<'_, Plant>
        ensures source { result.source.now ≡ self.now.plant.now }
        ensures map { result.map ≡ map_of self.now.plant.now }
    {
        live_records(&*self.plant)
    }
}

impl WordSource for Live<'_> {
    ghost words = { λ l. words_of l.plant.now.memory };

    fn load(&self, frame: u32, word: u32) -> Option<u32> {
        WordSource::load(&*self.plant, frame, word)
    }
}

impl WordStore for Live<'_> {
    ghost use Rattle.ow_plant.specs.State.{PlantState};
    ghost use Rattle.intent_store.specs.Live.{is_able, may_refuse, rest_of};

    ghost Rest = { PlantState };

    ghost rest = { λ l. rest_of l.plant.now };

    ghost able = { λ l. is_able l.plant.now };

    ghost refusal = { λ l. l.plant.now.refusal };

    ghost made = { λ l. l.plant.now.stores };

    ghost place = { λ l. l.plant.ghost_name };

    ghost may_refuse = { may_refuse };

    fn store(&mut self, frame: u32, word: u32, value: u32) -> Result<(), Panicked> {
        self.plant.store(frame, word, value)
    }
}

impl RecordView for Live<'_> {
    ghost use Rattle.record_layouts.specs.Values.{are_values};
    ghost use Rattle.intent_store.specs.Live.{map_of, records_held};

    ghost records = { λ l. records_held l.plant.now };

    ghost values = { λ l. are_values (map_of l.plant.now) (words_of l.plant.now.memory) };

    fn head(&self) -> Option<HeadRec> {
        self.view().head()
    }

    fn proc(&self, slot: u32) -> Option<ProcRec> {
        self.view().proc(slot)
    }

    fn sig(&self, slot: u32) -> Option<SigRec> {
        self.view().sig(slot)
    }

    fn desc(&self, i: u32) -> Option<DescRec> {
        self.view().desc(i)
    }

    fn file(&self, i: u32) -> Option<FileRec> {
        self.view().file(i)
    }

    fn cache(&self, i: u32) -> Option<CacheRec> {
        self.view().cache(i)
    }

    fn term(&self, tty: u32) -> Option<TermRec> {
        self.view().term(tty)
    }

    fn row(&self, i: u32) -> Option<RowRec> {
        self.view().row(i)
    }

    fn exit(&self, pid: u32) -> Option<ExitRec> {
        self.view().exit(pid)
    }

    fn owner(&self, frame: u32) -> u32 {
        self.view().owner(frame)
    }

    fn cache_owner(&self, i: u32) -> u32 {
        self.view().cache_owner(i)
    }

    fn table_word(&self, slot: u32, table: u32, word: u32) -> u32 {
        self.view().table_word(slot, table, word)
    }

    fn area_base(&self) -> u32 {
        self.view().area_base()
    }

    fn cache_base(&self) -> u32 {
        self.view().cache_base()
    }

    fn pool_base(&self) -> u32 {
        self.view().pool_base()
    }
}

#[tactic(auto, unfolding(record_layouts::specs::Reading::records_of, record_layouts::specs::Reading::records_in))]
impl Writer for Live<'_> {
    ghost use Rattle.std.specs.Prelude.{◌⊎◌, []};
    ghost use Rattle.record_layouts.specs.Held.{IsBeside, IsCommittable, IsDirect, IsDirectFrame, IsPartly, copied, patched, stored, zeroed};
    ghost use Rattle.record_layouts.specs.declared.intent.Gate.TheVariants.{Closed};
    ghost use Rattle.ow_plant.specs.State.{PlantState, is_refused};
    ghost use Rattle.intent_store.specs.Live.{IsBeforeEnd, IsStanding, IsUnstored, gate_held, held_of, may_refuse, records_held, rest_of};
    ghost use Rattle.intent_store.specs.OfMemory.{of_memory};

    ghost Rest = { PlantState };

    ghost rest = { λ l. rest_of l.plant.now };

    ghost disk = { λ l. [] };

    ghost refused = { λ l. is_refused l.plant.now };

    ghost made = { λ l. l.plant.now.stores };

    ghost may_refuse = { may_refuse };

    ghost of_memory = { λ l stands. of_memory l.plant.now stands.standing.armed };

    ghost place = { λ l. l.plant.ghost_name };

    ghost Stands = { λ l. IsBeforeEnd l.plant.now };

    fn user_frames(&self) -> u32 {
        self.plant.now().user_frames
    }

    fn sectors(&self) -> u32 {
        self.plant.now().sectors
    }

    /// Sets the records of a patch, all of them or, at `Panicked`, all or none. An intent that is open before is carried
    /// out and closed first; after `Ok` none is open.
    fn commit(&mut self, patch: &PatchView<'_>) -> Result<(), Panicked>
        requires able { self.old.plant.now.refusal ≡ None }
        requires stands { IsStanding self.old.plant.now }
        requires patch { IsCommittable (records_held self.old.plant.now) patch.now }
        ensures ok { OnOk result (held_of self.new.plant.now ≡ patched patch.now (held_of self.old.plant.now)) }
        ensures shut { OnOk result (gate_held self.new.plant.now ≡ Closed) }
        ensures err { OnErr result ((held_of self.new.plant.now ≡ held_of self.old.plant.now)
            ⊎ (held_of self.new.plant.now ≡ patched patch.now (held_of self.old.plant.now))) }
        ensures stays { OnOk result (self.new.plant.now.refusal ≡ None) }
        ensures cause { OnErr result (self.new.plant.now.refusal ≡ Some Store) }
        ensures unstored { IsUnstored self.old.plant.now self.new.plant.now }
        ensures allowed { OnErr result (may_refuse self.old.plant.now ≡ true) }
        ensures still_stands { IsStanding self.new.plant.now }
        ensures place { self.new.plant.ghost_name ≡ self.old.plant.ghost_name }
    {
        let base = self.map().area_base;
        commit(self, base, patch)
    }

    /// Stores a word that is there and is neither of a record nor of the intent block.
    fn direct_word(&mut self, frame: u32, word: u32, value: u32) -> Result<(), Panicked>
        requires able { self.old.plant.now.refusal ≡ None }
        requires stands { IsStanding self.old.plant.now }
        requires direct { IsDirect (records_held self.old.plant.now) (words_of self.old.plant.now.memory) frame word }
        ensures ok { OnOk result (held_of self.new.plant.now ≡ stored (held_of self.old.plant.now) frame word value) }
        ensures err { OnErr result (held_of self.new.plant.now ≡ held_of self.old.plant.now) }
        ensures stays { OnOk result (self.new.plant.now.refusal ≡ None) }
        ensures cause { OnErr result (self.new.plant.now.refusal ≡ Some Store) }
        ensures unstored { IsUnstored self.old.plant.now self.new.plant.now }
        ensures allowed { OnErr result (may_refuse self.old.plant.now ≡ true) }
        ensures still_stands { IsStanding self.new.plant.now }
        ensures place { self.new.plant.ghost_name ≡ self.old.plant.ghost_name }
    {
        self.store(frame, word, value)
    }

    /// Copies a frame beside the area over another of which no word is of a record or of the intent block. At
    /// `Panicked` the first words are copied, up to one.
    fn copy_frame(&mut self, from: u32, to: u32) -> Result<(), Panicked>
        requires able { self.old.plant.now.refusal ≡ None }
        requires stands { IsStanding self.old.plant.now }
        requires from { IsBeside (records_held self.old.plant.now) (words_of self.old.plant.now.memory) from }
        requires to { IsDirectFrame (records_held self.old.plant.now) (words_of self.old.plant.now.memory) to }
        ensures ok { OnOk result (held_of self.new.plant.now ≡ copied (held_of self.old.plant.now) from to 1024) }
        ensures err { OnErr result (IsPartly (copied (held_of self.old.plant.now) from to) (held_of self.new.plant.now)) }
        ensures stays { OnOk result (self.new.plant.now.refusal ≡ None) }
        ensures cause { OnErr result (self.new.plant.now.refusal ≡ Some Store) }
        ensures unstored { IsUnstored self.old.plant.now self.new.plant.now }
        ensures allowed { OnErr result (may_refuse self.old.plant.now ≡ true) }
        ensures still_stands { IsStanding self.new.plant.now }
        ensures place { self.new.plant.ghost_name ≡ self.old.plant.ghost_name }
    {
        copy_frame(self, from, to)
    }

    /// Makes all words of a frame 0, of which no word is of a record or of the intent block. At `Panicked` the first
    /// words are 0, up to one.
    fn zero_frame(&mut self, frame: u32) -> Result<(), Panicked>
        requires able { self.old.plant.now.refusal ≡ None }
        requires stands { IsStanding self.old.plant.now }
        requires frame { IsDirectFrame (records_held self.old.plant.now) (words_of self.old.plant.now.memory) frame }
        ensures ok { OnOk result (held_of self.new.plant.now ≡ zeroed (held_of self.old.plant.now) frame 1024) }
        ensures err { OnErr result (IsPartly (zeroed (held_of self.old.plant.now) frame) (held_of self.new.plant.now)) }
        ensures stays { OnOk result (self.new.plant.now.refusal ≡ None) }
        ensures cause { OnErr result (self.new.plant.now.refusal ≡ Some Store) }
        ensures unstored { IsUnstored self.old.plant.now self.new.plant.now }
        ensures allowed { OnErr result (may_refuse self.old.plant.now ≡ true) }
        ensures still_stands { IsStanding self.new.plant.now }
        ensures place { self.new.plant.ghost_name ≡ self.old.plant.ghost_name }
    {
        zero_frame(self, frame)
    }
}
