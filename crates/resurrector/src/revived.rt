//! What a new kernel begins with after a panic.
ghost use Rattle.std.specs.Prelude.{◌≡◌, ◌+◌, ◌^◌, ◌<◌, IfSome};
ghost use Rattle.ow_base.specs.Sv32.{word_or_zero};
ghost use Rattle.record_layouts.specs.Patch.{FitsAny, IsOfKind};
ghost use Rattle.record_layouts.specs.Places.{IsRecordId};
ghost use Rattle.dead_reader.specs.Left.{handed_of};
ghost use Rattle.resurrector.specs.Revived.{holder_if, is_placed_in, revived_holder, revived_page, revived_record};
ghost use Rattle.resurrector.specs.Survivors.{AreOutcomes};

use crate::left::Left;
use dead_reader::RecordView;
use frame_table::{frame_of_page, region};
use kernel_builder::{Blueprint, Holder, Placed, empty_entry, unused_file};
use record_layouts::{AnyRec, RecordId, SLOTS};

// The end of the pages that a process can have.
const PAGES_END: u32 = 0x8_0000;

// One slot more counts so much in the word that names an owner.
const SLOT_UNIT: u32 = 1 << 20;

impl<V: RecordView> Left<'_, V> {
    // The record with this id.
    fn record_of(&self, id: RecordId) -> AnyRec
        requires stands { AreOutcomes (V.records self.now.view.now) (handed_of self.now.handed) self.now.outcomes }
        requires id { IsRecordId id }
        ensures is { result ≡ revived_record (V.records self.now.view.now) (handed_of self.now.handed) self.now.counts id }
        ensures kind { IsOfKind id result }
        ensures fits { FitsAny result }
    {
        match id {
            RecordId::Head => AnyRec::Head(self.head()),
            RecordId::Proc(slot) => AnyRec::Proc(self.process(slot)),
            RecordId::Sig(slot) => AnyRec::Sig(self.signals(slot)),
            RecordId::Desc(index) => AnyRec::Desc(self.description(index)),
            RecordId::File(_) => AnyRec::File(unused_file()),
            RecordId::Cache(_) => AnyRec::Cache(empty_entry()),
            RecordId::Term(tty) => AnyRec::Term(self.terminal(tty)),
            RecordId::Row(place) => AnyRec::Row(self.row(place)),
            RecordId::Exit(pid) => AnyRec::Exit(self.exit(pid)),
        }
    }

    // Where a page of a slot is: its frame keeps its number among the user frames.
    #[tactic(auto, unfolding(crate::specs::Revived::revived_page))]
    fn page_of(&self, slot: u32, page: u32) -> Option<Placed>
        requires stands { AreOutcomes (V.records self.now.view.now) (handed_of self.now.handed) self.now.outcomes }
        requires slot { slot < 16 }
        requires page { page < 2 ^ 19 }
        ensures is { result ≡ revived_page (V.records self.now.view.now) (handed_of self.now.handed) slot page }
        ensures fits { IfSome result (λ placed. placed.frame < (V.records self.now.view.now).map.user_frames) }
    {
        let process = self.survivor(slot)?;
        let frame = frame_of_page(self.view, slot, &process, page)?;
        let rights = region(&process, page)?;
        Some(Placed {
            frame: frame - self.view.pool_base(),
            rights,
        })
    }

    // What a user frame holds whose owner word names this slot and this page.
    fn holder_if(&self, frame: u32, slot: u32, page: u32) -> Option<Holder>
        requires { AreOutcomes (V.records self.now.view.now) (handed_of self.now.handed) self.now.outcomes }
        ensures is { result ≡ holder_if (V.records self.now.view.now) (handed_of self.now.handed) frame slot page }
        ensures fits { IfSome result (λ holder. (holder.slot < 16) × (holder.page < 2 ^ 19)) }
    {
        let is_there = slot < SLOTS
            && page < PAGES_END
            && is_placed_in(frame, self.page_of(slot, page));
        if is_there {
            Some(Holder { slot, page })
        } else {
            None
        }
    }

    // What a user frame holds.
    #[tactic(auto, unfolding(crate::specs::Revived::revived_holder))]
    fn holder_of(&self, frame: u32) -> Option<Holder>
        requires { AreOutcomes (V.records self.now.view.now) (handed_of self.now.handed) self.now.outcomes }
        ensures is { result ≡ revived_holder (V.records self.now.view.now) (handed_of self.now.handed) frame }
        ensures fits { IfSome result (λ holder. (holder.slot < 16) × (holder.page < 2 ^ 19)) }
    {
        let owner = self.view.owner(frame);
        if owner < SLOT_UNIT {
            return None;
        }
        self.holder_if(frame, owner / SLOT_UNIT - 1, owner % SLOT_UNIT)
    }

    // A word of a user frame.
    fn word_in(&self, frame: u32, word: u32) -> u32
        requires frame { frame < 384 }
        requires word { word < 1024 }
        ensures { result ≡ word_or_zero (V.words self.now.view.now ((V.records self.now.view.now).map.pool_base + frame) word) }
    {
        match self.view.load(self.view.pool_base() + frame, word) {
            Some(value) => value,
            None => 0,
        }
    }
}

impl<V: RecordView> Blueprint for Left<'_, V> {
    ghost use Rattle.dead_reader.specs.Left.{handed_of};
    ghost use Rattle.resurrector.specs.Revived.{revived_plan};
    ghost use Rattle.resurrector.specs.Survivors.{AreOutcomes};

    ghost plan = { λ b. revived_plan (V.records b.view.now) (handed_of b.handed) b.counts (V.words b.view.now) };

    ghost frames = { λ b. (V.records b.view.now).map.user_frames };

    ghost stands = { λ b. AreOutcomes (V.records b.view.now) (handed_of b.handed) b.outcomes };

    fn record(&self, id: RecordId) -> AnyRec {
        self.record_of(id)
    }

    fn is_live(&self, slot: u32) -> bool {
        self.survivor(slot).is_some()
    }

    fn page(&self, slot: u32, page: u32) -> Option<Placed> {
        self.page_of(slot, page)
    }

    fn holder(&self, frame: u32) -> Option<Holder> {
        self.holder_of(frame)
    }

    fn page_word(&self, frame: u32, _holder: Holder, word: u32) -> u32 {
        self.word_in(frame, word)
    }
}

// A page is in this user frame.
fn is_placed_in(frame: u32, placed: Option<Placed>) -> bool
    ensures { result ≡ is_placed_in frame placed }
{
    match placed {
        Some(placed) => placed.frame == frame,
        None => false,
    }
}
