//! An intent is spelled in the block of an area, and opened.
ghost use Rattle.std.specs.Prelude.{◌≡◌, ◌+◌, ◌<◌, ◌≤◌, true, length, IfOk, OnOk, OnErr};
ghost use Rattle.record_layouts.specs.Held.{beside};
ghost use Rattle.record_layouts.specs.Overlay.{HasArea, area_at};
ghost use Rattle.record_layouts.specs.Parts.{item_of, record_of};
ghost use Rattle.record_layouts.specs.Patch.{FitsAny, IsPatch, IsPatchItem};
ghost use Rattle.intent_store.specs.Blocks.{IsShutLike};
ghost use Rattle.intent_store.specs.Payloads.{IsItemSpelled, IsOpened, IsPatchSpelled, IsRecordSpelled, IsSpelledOn};
ghost use Rattle.ow_plant.specs.declared.refusal.Refusal.TheVariants.{Store};
ghost use Rattle.word_store.specs.Stores.{KeepsUnstored};

use crate::payload::{length_of, payload_length};
use ow_base::{Panicked, seal};
use record_layouts::{
    GATE, INTENT_KIND, PAYLOAD, PatchPart, PatchView, RecordRef, SEAL, address, records_lie_apart,
};
use word_store::{WordStore, store_area};

/// How far an intent is spelled: the number of the next word of its payload, and the seal of its gate and its words.
#[derive(Clone, Copy, Debug, PartialEq, Eq)]
pub(crate) struct Spelling {
    pub(crate) end: u32,
    pub(crate) seal: u32,
}

/// Opens an intent that sets the records of a patch in the area that begins at frame `base`, where none is open: the
/// payload and the seal are stored first, and the gate opens last. The number behind the payload comes back.
pub(crate) fn open<W: WordStore>(
    store: &mut W,
    base: u32,
    patch: &PatchView<'_>,
) -> Result<u32, Panicked>
    requires able { W.able store.old ≡ true }
    requires area { HasArea (W.words store.old) base }
    requires shut { area_at (W.words store.old) base 16 ≡ 0 }
    requires patch { IsPatch patch.now }
    ensures ok { IfOk result (IsOpened patch.now (area_at (W.words store.old) base) (area_at (W.words store.new) base)) }
    ensures err { OnErr result (IsShutLike (area_at (W.words store.old) base) (area_at (W.words store.new) base)) }
    ensures there { HasArea (W.words store.new) base }
    ensures beside { beside base (W.words store.new) ≡ beside base (W.words store.old) }
    ensures rest { W.rest store.new ≡ W.rest store.old }
    ensures stays { OnOk result (W.able store.new ≡ true) }
    ensures cause { OnErr result (W.refusal store.new ≡ Some Store) }
    ensures unstored { KeepsUnstored (W.made store.old) (W.made store.new) (W.words store.old) (W.words store.new) }
    ensures allowed { OnErr result (W.may_refuse (W.rest store.old) ≡ true) }
    ensures place { W.place store.new ≡ W.place store.old }
{
    let count = payload_length(patch);
    let begun = Spelling {
        end: PAYLOAD,
        seal: seal(INTENT_KIND, &[count]),
    };
    let spelled = store_payload(store, base, begun, patch)?;
    store_area(store, base, SEAL, spelled.seal)?;
    store_area(store, base, GATE, count)?;
    Ok(spelled.end)
}

// Stores the payload that sets the records of a patch under a closed gate, one range for each.
fn store_payload<W: WordStore>(
    store: &mut W,
    base: u32,
    begun: Spelling,
    patch: &PatchView<'_>,
) -> Result<Spelling, Panicked>
    requires able { W.able store.old ≡ true }
    requires area { HasArea (W.words store.old) base }
    requires shut { area_at (W.words store.old) base 16 ≡ 0 }
    requires begun { begun.end ≡ 17 }
    requires patch { IsPatch patch.now }
    ensures ok { IfOk result (IsPatchSpelled patch.now (area_at (W.words store.old) base) (area_at (W.words store.new) base) begun) }
    ensures shut { IsShutLike (area_at (W.words store.old) base) (area_at (W.words store.new) base) }
    ensures there { HasArea (W.words store.new) base }
    ensures beside { beside base (W.words store.new) ≡ beside base (W.words store.old) }
    ensures rest { W.rest store.new ≡ W.rest store.old }
    ensures stays { OnOk result (W.able store.new ≡ true) }
    ensures cause { OnErr result (W.refusal store.new ≡ Some Store) }
    ensures unstored { KeepsUnstored (W.made store.old) (W.made store.new) (W.words store.old) (W.words store.new) }
    ensures allowed { OnErr result (W.may_refuse (W.rest store.old) ≡ true) }
    ensures place { W.place store.new ≡ W.place store.old }
{
    let mut spelled = begun;
    for part in patch.parts() {
        spelled = store_part(store, base, spelled, part)?;
    }
    Ok(spelled)
}

// Stores the range that sets a record, which has at most 131 words, behind what is stored of a payload.
fn store_part<W: WordStore>(
    store: &mut W,
    base: u32,
    spelled: Spelling,
    part: &PatchPart<'_>,
) -> Result<Spelling, Panicked>
    requires able { W.able store.old ≡ true }
    requires area { HasArea (W.words store.old) base }
    requires shut { area_at (W.words store.old) base 16 ≡ 0 }
    requires begun { 17 ≤ spelled.end }
    requires room { spelled.end + 131 ≤ 1023 }
    requires part { IsPatchItem (item_of part.now) }
    ensures ok { IfOk result (IsItemSpelled (item_of part.now) (area_at (W.words store.old) base) (area_at (W.words store.new) base) spelled) }
    ensures shut { IsShutLike (area_at (W.words store.old) base) (area_at (W.words store.new) base) }
    ensures there { HasArea (W.words store.new) base }
    ensures beside { beside base (W.words store.new) ≡ beside base (W.words store.old) }
    ensures rest { W.rest store.new ≡ W.rest store.old }
    ensures stays { OnOk result (W.able store.new ≡ true) }
    ensures cause { OnErr result (W.refusal store.new ≡ Some Store) }
    ensures unstored { KeepsUnstored (W.made store.old) (W.made store.new) (W.words store.old) (W.words store.new) }
    ensures allowed { OnErr result (W.may_refuse (W.rest store.old) ≡ true) }
    ensures place { W.place store.new ≡ W.place store.old }
{
    records_lie_apart();
    let (frame, first) = address(part.id);
    let spelled = store_words(store, base, spelled, &[frame, first, length_of(part.id)])?;
    store_record(store, base, spelled, part.rec)
}

// Stores the words of a record, of which there are at most 128, behind what is stored of a payload.
fn store_record<W: WordStore>(
    store: &mut W,
    base: u32,
    spelled: Spelling,
    rec: RecordRef<'_>,
) -> Result<Spelling, Panicked>
    requires able { W.able store.old ≡ true }
    requires area { HasArea (W.words store.old) base }
    requires shut { area_at (W.words store.old) base 16 ≡ 0 }
    requires begun { 17 ≤ spelled.end }
    requires room { spelled.end + 128 ≤ 1023 }
    requires rec { FitsAny (record_of rec) }
    ensures ok { IfOk result (IsRecordSpelled (record_of rec.entry) (area_at (W.words store.old) base) (area_at (W.words store.new) base) spelled) }
    ensures shut { IsShutLike (area_at (W.words store.old) base) (area_at (W.words store.new) base) }
    ensures there { HasArea (W.words store.new) base }
    ensures beside { beside base (W.words store.new) ≡ beside base (W.words store.old) }
    ensures rest { W.rest store.new ≡ W.rest store.old }
    ensures stays { OnOk result (W.able store.new ≡ true) }
    ensures cause { OnErr result (W.refusal store.new ≡ Some Store) }
    ensures unstored { KeepsUnstored (W.made store.old) (W.made store.new) (W.words store.old) (W.words store.new) }
    ensures allowed { OnErr result (W.may_refuse (W.rest store.old) ≡ true) }
    ensures place { W.place store.new ≡ W.place store.old }
{
    match rec {
        RecordRef::Head(head) => store_words(store, base, spelled, &head.to_words()),
        RecordRef::Proc(process) => store_words(store, base, spelled, &process.to_words()),
        RecordRef::Sig(signals) => store_words(store, base, spelled, &signals.to_words()),
        RecordRef::Desc(description) => store_words(store, base, spelled, &description.to_words()),
        RecordRef::File(file) => store_words(store, base, spelled, &file.to_words()),
        RecordRef::Cache(entry) => store_words(store, base, spelled, &entry.to_words()),
        RecordRef::Term(terminal) => store_words(store, base, spelled, &terminal.to_words()),
        RecordRef::Row(row) => store_words(store, base, spelled, &row.to_words()),
        RecordRef::Exit(exit) => store_words(store, base, spelled, &exit.to_words()),
    }
}

// Stores words behind what is stored of a payload, under a closed gate.
fn store_words<W: WordStore>(
    store: &mut W,
    base: u32,
    spelled: Spelling,
    words: &[u32],
) -> Result<Spelling, Panicked>
    requires able { W.able store.old ≡ true }
    requires area { HasArea (W.words store.old) base }
    requires shut { area_at (W.words store.old) base 16 ≡ 0 }
    requires begun { 17 ≤ spelled.end }
    requires room { spelled.end + length words.now ≤ 1023 }
    ensures ok { IfOk result (IsSpelledOn words.now (area_at (W.words store.old) base) (area_at (W.words store.new) base) spelled) }
    ensures shut { IsShutLike (area_at (W.words store.old) base) (area_at (W.words store.new) base) }
    ensures there { HasArea (W.words store.new) base }
    ensures beside { beside base (W.words store.new) ≡ beside base (W.words store.old) }
    ensures rest { W.rest store.new ≡ W.rest store.old }
    ensures stays { OnOk result (W.able store.new ≡ true) }
    ensures cause { OnErr result (W.refusal store.new ≡ Some Store) }
    ensures unstored { KeepsUnstored (W.made store.old) (W.made store.new) (W.words store.old) (W.words store.new) }
    ensures allowed { OnErr result (W.may_refuse (W.rest store.old) ≡ true) }
    ensures place { W.place store.new ≡ W.place store.old }
{
    for (index, word) in words.iter().enumerate() {
        store_area(store, base, spelled.end + index as u32, *word)?;
    }
    Ok(Spelling {
        end: spelled.end + words.len() as u32,
        seal: seal(spelled.seal, words),
    })
}
