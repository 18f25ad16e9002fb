//! An open intent is carried out: what it makes of words is copied to their places, and it is closed.
ghost use Rattle.std.specs.Prelude.{◌≡◌, ◌+◌, ◌-◌, ◌<◌, ◌≤◌, true, OnOk, OnErr};
ghost use Rattle.record_layouts.specs.Held.{beside};
ghost use Rattle.record_layouts.specs.Overlay.{EndsOpen, HasArea, area_at, gate_of, may_change, overlay, values_end};
ghost use Rattle.record_layouts.specs.Reading.{is_readable_gate};
ghost use Rattle.intent_store.specs.Blocks.{IsPartlyChanged, ReadsAs, partly_changed, rolled};
ghost use Rattle.ow_plant.specs.declared.refusal.Refusal.TheVariants.{Store};
ghost use Rattle.word_store.specs.Stores.{KeepsUnstored};

use ow_base::{FRAME_WORDS, Panicked, WordSource};
use record_layouts::{Change, GATE, PAYLOAD, change_at, open_end};
use word_store::{WordStore, store_area};

/// Carries out the open intent of the area that begins at frame `base`, and closes it. Where none is open nothing is done.
pub(crate) fn roll_forward<W: WordStore>(store: &mut W, base: u32) -> Result<(), Panicked>
    requires able { W.able store.old ≡ true }
    requires area { HasArea (W.words store.old) base }
    requires readable { is_readable_gate (gate_of (area_at (W.words store.old) base)) ≡ true }
    ensures ok { OnOk result (area_at (W.words store.new) base ≡ rolled (area_at (W.words store.old) base)) }
    ensures err { OnErr result (ReadsAs (area_at (W.words store.old) base) (area_at (W.words store.new) base)) }
    ensures there { HasArea (W.words store.new) base }
    ensures beside { beside base (W.words store.new) ≡ beside base (W.words store.old) }
    ensures rest { W.rest store.new ≡ W.rest store.old }
    ensures stays { OnOk result (W.able store.new ≡ true) }
    ensures cause { OnErr result (W.refusal store.new ≡ Some Store) }
    ensures unstored { KeepsUnstored (W.made store.old) (W.made store.new) (W.words store.old) (W.words store.new) }
    ensures allowed { OnErr result (W.may_refuse (W.rest store.old) ≡ true) }
    ensures place { W.place store.new ≡ W.place store.old }
{
    match open_end(store, base) {
        Some(end) => carry_out(store, base, end),
        None => Ok(()),
    }
}

/// Carries out the open intent, whose payload ends before `end`, and closes it.
pub(crate) fn carry_out<W: WordStore>(store: &mut W, base: u32, end: u32) -> Result<(), Panicked>
    requires able { W.able store.old ≡ true }
    requires area { HasArea (W.words store.old) base }
    requires open { EndsOpen (area_at (W.words store.old) base) end }
    ensures ok { OnOk result (area_at (W.words store.new) base ≡ rolled (area_at (W.words store.old) base)) }
    ensures err { OnErr result (ReadsAs (area_at (W.words store.old) base) (area_at (W.words store.new) base)) }
    ensures there { HasArea (W.words store.new) base }
    ensures beside { beside base (W.words store.new) ≡ beside base (W.words store.old) }
    ensures rest { W.rest store.new ≡ W.rest store.old }
    ensures stays { OnOk result (W.able store.new ≡ true) }
    ensures cause { OnErr result (W.refusal store.new ≡ Some Store) }
    ensures unstored { KeepsUnstored (W.made store.old) (W.made store.new) (W.words store.old) (W.words store.new) }
    ensures allowed { OnErr result (W.may_refuse (W.rest store.old) ≡ true) }
    ensures place { W.place store.new ≡ W.place store.old }
{
    copy_changes(store, base, end)?;
    store_area(store, base, GATE, 0)
}

// Copies the new values of the open intent, whose payload ends before `end`, to their places.
fn copy_changes<W: WordStore>(store: &mut W, base: u32, end: u32) -> Result<(), Panicked>
    requires able { W.able store.old ≡ true }
    requires area { HasArea (W.words store.old) base }
    requires open { EndsOpen (area_at (W.words store.old) base) end }
    ensures ok { OnOk result (area_at (W.words store.new) base ≡ overlay (area_at (W.words store.old) base)) }
    ensures reads { ReadsAs (area_at (W.words store.old) base) (area_at (W.words store.new) base) }
    ensures there { HasArea (W.words store.new) base }
    ensures beside { beside base (W.words store.new) ≡ beside base (W.words store.old) }
    ensures rest { W.rest store.new ≡ W.rest store.old }
    ensures stays { OnOk result (W.able store.new ≡ true) }
    ensures cause { OnErr result (W.refusal store.new ≡ Some Store) }
    ensures unstored { KeepsUnstored (W.made store.old) (W.made store.new) (W.words store.old) (W.words store.new) }
    ensures allowed { OnErr result (W.may_refuse (W.rest store.old) ≡ true) }
    ensures place { W.place store.new ≡ W.place store.old }
{
    let mut place = PAYLOAD;
    while let Some(change) = change_at(store, base, place, end) {
        copy_change(store, base, change)?;
        place = change.values_end();
    }
    Ok(())
}

// Copies the new values of a change to their places, the first one first.
fn copy_change<W: WordStore>(store: &mut W, base: u32, change: Change) -> Result<(), Panicked>
    requires able { W.able store.old ≡ true }
    requires area { HasArea (W.words store.old) base }
    requires order { change.span.begin ≤ change.span.end }
    requires changes { may_change change.span.begin change.span.end ≡ true }
    requires begins { 17 ≤ change.values }
    requires ends { values_end change ≤ 1023 }
    ensures ok { OnOk result (area_at (W.words store.new) base ≡ partly_changed change (change.span.end - change.span.begin) (area_at (W.words store.old) base)) }
    ensures err { OnErr result (IsPartlyChanged change (area_at (W.words store.old) base) (area_at (W.words store.new) base)) }
    ensures there { HasArea (W.words store.new) base }
    ensures beside { beside base (W.words store.new) ≡ beside base (W.words store.old) }
    ensures rest { W.rest store.new ≡ W.rest store.old }
    ensures stays { OnOk result (W.able store.new ≡ true) }
    ensures cause { OnErr result (W.refusal store.new ≡ Some Store) }
    ensures unstored { KeepsUnstored (W.made store.old) (W.made store.new) (W.words store.old) (W.words store.new) }
    ensures allowed { OnErr result (W.may_refuse (W.rest store.old) ≡ true) }
    ensures place { W.place store.new ≡ W.place store.old }
{
    for number in change.span.begin..change.span.end {
        let value = change.values + (number - change.span.begin);
        let word = word_of(store, base, value);
        store_area(store, base, number, word)?;
    }
    Ok(())
}

// The word of this number of the area that begins at frame `base`.
fn word_of<W: WordStore>(store: &W, base: u32, number: u32) -> u32
    requires area { HasArea (W.words store.now) base }
    requires number { number < 65536 }
    ensures { result ≡ area_at (W.words store.now) base number }
{
    store
        .load(base + number / FRAME_WORDS, number % FRAME_WORDS)
        .unwrap_or(0)
}
