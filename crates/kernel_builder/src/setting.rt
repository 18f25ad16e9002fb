//! Setting all records of a new kernel, in an area of which nothing is assumed.
ghost use Rattle.std.specs.Prelude.{◌≡◌, ◌+◌, ◌<◌, ◌≤◌, true, Some, OnOk, OnErr, length};
ghost use Rattle.record_layouts.specs.Held.{beside};
ghost use Rattle.record_layouts.specs.Overlay.{HasArea, area_at};
ghost use Rattle.record_layouts.specs.Patch.{IsPatchItem};
ghost use Rattle.record_layouts.specs.Places.{IsRecordId, length_of};
ghost use Rattle.record_layouts.specs.Seam.{IsSpelled};
ghost use Rattle.ow_plant.specs.declared.refusal.Refusal.TheVariants.{Store};
ghost use Rattle.kernel_builder.specs.Counts.{record_words};
ghost use Rattle.kernel_builder.specs.Sets.{HasRecords, IsSet, index_of, unrecorded, with_first_words};

use crate::blueprint::Blueprint;
use ow_base::{FRAME_WORDS, Panicked};
use record_layouts::{AnyRec, RecordId, address, records_lie_apart};
use word_store::{WordStore, store_area};

// How many records an area has.
const RECORDS: u32 = 467;

// The record with this number among all.
fn numbered_id(number: u32) -> RecordId
    requires { number < RECORDS }
    ensures there { IsRecordId result }
    ensures number { index_of result ≡ number }
{
    match number {
        0 => RecordId::Head,
        1..=16 => RecordId::Proc(number - 1),
        17..=32 => RecordId::Sig(number - 17),
        33..=64 => RecordId::Desc(number - 33),
        65..=96 => RecordId::File(number - 65),
        97..=160 => RecordId::Cache(number - 97),
        161..=162 => RecordId::Term(number - 161),
        163..=210 => RecordId::Row(number - 163),
        _ => RecordId::Exit(number - 210),
    }
}

// Stores words of the area that begins at frame `base`, from the one with this number on.
#[tactic(auto, using(crate::proofs::Sets::words_none, crate::proofs::Sets::words_more))]
fn store_words<S: WordStore>(
    store: &mut S,
    base: u32,
    begin: u32,
    words: &[u32],
) -> Result<(), Panicked>
    requires able { S.able store.old ≡ true }
    requires area { HasArea (S.words store.old) base }
    requires room { begin + length words.now ≤ 65536 }
    ensures words { OnOk result (area_at (S.words store.new) base ≡ with_first_words (area_at (S.words store.old) base) begin (length words.now) words.now) }
    ensures there { HasArea (S.words store.new) base }
    ensures beside { beside base (S.words store.new) ≡ beside base (S.words store.old) }
    ensures rest { S.rest store.new ≡ S.rest store.old }
    ensures stays { OnOk result (S.able store.new ≡ true) }
    ensures cause { OnErr result (S.refusal store.new ≡ Some Store) }
    ensures counted { S.made store.new ≤ S.made store.old + length words.now }
    ensures allowed { OnErr result (S.may_refuse (S.rest store.old) ≡ true) }
    ensures place { S.place store.new ≡ S.place store.old }
{
    for (place, word) in words.iter().enumerate() {
        store_area(store, base, begin + place as u32, *word)?;
    }
    Ok(())
}

// Stores the words of a record at its place.
fn store_record<S: WordStore>(
    store: &mut S,
    base: u32,
    id: RecordId,
    rec: &AnyRec,
    words: &[u32],
) -> Result<(), Panicked>
    requires able { S.able store.old ≡ true }
    requires area { HasArea (S.words store.old) base }
    requires item { IsPatchItem (record { id = id; rec = rec.now }) }
    requires spelled { IsSpelled rec.now words.now }
    ensures set { OnOk result (IsSet (area_at (S.words store.old) base) (area_at (S.words store.new) base) id rec.now) }
    ensures there { HasArea (S.words store.new) base }
    ensures beside { beside base (S.words store.new) ≡ beside base (S.words store.old) }
    ensures rest { S.rest store.new ≡ S.rest store.old }
    ensures stays { OnOk result (S.able store.new ≡ true) }
    ensures cause { OnErr result (S.refusal store.new ≡ Some Store) }
    ensures counted { S.made store.new ≤ S.made store.old + length_of id }
    ensures allowed { OnErr result (S.may_refuse (S.rest store.old) ≡ true) }
    ensures place { S.place store.new ≡ S.place store.old }
{
    records_lie_apart();
    let (frame, first) = address(id);
    store_words(store, base, FRAME_WORDS * frame + first, words)
}

// Sets a record.
fn set_record<S: WordStore>(
    store: &mut S,
    base: u32,
    id: RecordId,
    rec: &AnyRec,
) -> Result<(), Panicked>
    requires able { S.able store.old ≡ true }
    requires area { HasArea (S.words store.old) base }
    requires item { IsPatchItem (record { id = id; rec = rec.now }) }
    ensures set { OnOk result (IsSet (area_at (S.words store.old) base) (area_at (S.words store.new) base) id rec.now) }
    ensures there { HasArea (S.words store.new) base }
    ensures beside { beside base (S.words store.new) ≡ beside base (S.words store.old) }
    ensures rest { S.rest store.new ≡ S.rest store.old }
    ensures stays { OnOk result (S.able store.new ≡ true) }
    ensures cause { OnErr result (S.refusal store.new ≡ Some Store) }
    ensures counted { S.made store.new ≤ S.made store.old + length_of id }
    ensures allowed { OnErr result (S.may_refuse (S.rest store.old) ≡ true) }
    ensures place { S.place store.new ≡ S.place store.old }
{
    match rec {
        AnyRec::Head(head) => store_record(store, base, id, rec, &head.to_words()),
        AnyRec::Proc(process) => store_record(store, base, id, rec, &process.to_words()),
        AnyRec::Sig(signals) => store_record(store, base, id, rec, &signals.to_words()),
        AnyRec::Desc(description) => store_record(store, base, id, rec, &description.to_words()),
        AnyRec::File(file) => store_record(store, base, id, rec, &file.to_words()),
        AnyRec::Cache(entry) => store_record(store, base, id, rec, &entry.to_words()),
        AnyRec::Term(terminal) => store_record(store, base, id, rec, &terminal.to_words()),
        AnyRec::Row(row) => store_record(store, base, id, rec, &row.to_words()),
        AnyRec::Exit(exit) => store_record(store, base, id, rec, &exit.to_words()),
    }
}

/// Sets all records, as a blueprint says.
#[tactic(auto, using(crate::proofs::Sets::records_none, crate::proofs::Counts::none_below, crate::proofs::Counts::below_all))]
pub(crate) fn set_records<B: Blueprint, S: WordStore>(
    store: &mut S,
    base: u32,
    blueprint: &B,
) -> Result<(), Panicked>
    requires able { S.able store.old ≡ true }
    requires area { HasArea (S.words store.old) base }
    requires stands { B.stands blueprint.now }
    ensures records { OnOk result (HasRecords (area_at (S.words store.new) base) ((B.plan blueprint.now).record_of) RECORDS) }
    ensures kept { OnOk result (unrecorded (area_at (S.words store.new) base) ≡ unrecorded (area_at (S.words store.old) base)) }
    ensures there { HasArea (S.words store.new) base }
    ensures beside { beside base (S.words store.new) ≡ beside base (S.words store.old) }
    ensures rest { S.rest store.new ≡ S.rest store.old }
    ensures stays { OnOk result (S.able store.new ≡ true) }
    ensures cause { OnErr result (S.refusal store.new ≡ Some Store) }
    ensures counted { S.made store.new ≤ S.made store.old + record_words }
    ensures allowed { OnErr result (S.may_refuse (S.rest store.old) ≡ true) }
    ensures place { S.place store.new ≡ S.place store.old }
{
    records_lie_apart();
    for number in 0..RECORDS {
        let id = numbered_id(number);
        let rec = blueprint.record(id);
        set_record(store, base, id, &rec)?;
    }
    Ok(())
}
