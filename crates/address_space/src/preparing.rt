//! One page that is prepared in a free frame, and tables that are made ready for pages.

ghost use Rattle.std.specs.Prelude.{◌≡◌, ◌+◌, ◌*◌, ◌%◌, ◌^◌, ◌<◌, true, false, None, IfSome, OnErr, OnOk};
ghost use Rattle.ow_base.specs.Entries.{leaf_word};
ghost use Rattle.record_layouts.specs.Held.{IsPartly, StaysUnstored, held_by, stored};
ghost use Rattle.record_layouts.specs.Pages.{claim_of, live_one, table_frame};
ghost use Rattle.address_space.specs.Preparing.{AreFirstBare, AreTablesBare, AreTablesPartlyBare, AreWordsBare, CanPrepare, IsPageBegun, IsPagePrepared, IsUserFrame, bare_word, filled, table_of};
ghost use Rattle.address_space.specs.Spaces.{OnlyPrepares};

use frame_table::claim_word;
use ow_base::{FRAME_WORDS, Panicked, Rights};
use record_layouts::{FIRST_TABLE, OWNERS, RecordView, TABLES_OF_SLOT, Writer};
use sv32_tables::{leaf, pointer};

/// Prepares a page of a slot that does not count, in the free user frame of this number: the frame gets the words of the
/// user frame `source`, or zeros, and then the owner word and the page's entry are stored.
///
/// At `Panicked` the entry is what it was.
pub(crate) fn prepare_page<W: Writer>(
    live: &mut W,
    slot: u32,
    page: u32,
    rights: Rights,
    source: Option<u32>,
    number: u32,
) -> Result<(), Panicked>
    requires able { W.refused live.old ≡ false }
    requires stands { W.Stands live.old }
    requires can { CanPrepare (W.records live.old) slot page number }
    requires source { IfSome source (IsUserFrame (W.records live.old)) }
    ensures ok { OnOk result (IsPagePrepared (held_by W.records W.words W.disk W.rest live.old)
        (held_by W.records W.words W.disk W.rest live.new) slot page number rights source) }
    ensures err { OnErr result (IsPageBegun (held_by W.records W.words W.disk W.rest live.old)
        (held_by W.records W.words W.disk W.rest live.new) number) }
    ensures prepares { OnlyPrepares slot (held_by W.records W.words W.disk W.rest live.old) (held_by W.records W.words W.disk W.rest live.new) }
    ensures stays { OnOk result (W.refused live.new ≡ false) }
    ensures cause { OnErr result (W.refused live.new ≡ true) }
    ensures unstored { StaysUnstored (W.made live.old) (W.made live.new)
        (held_by W.records W.words W.disk W.rest live.old) (held_by W.records W.words W.disk W.rest live.new) }
    ensures allowed { OnErr result (W.may_refuse (W.rest live.old) ≡ true) }
    ensures still_stands { W.Stands live.new }
    ensures place { W.place live.new ≡ W.place live.old }
{
    fill_frame(live, number, source)?;
    claim_frame(live, slot, page, number)?;
    enter_page(live, slot, page, rights, number)
}

// Gives a user frame the words of another one, or zeros.
fn fill_frame<W: Writer>(live: &mut W, number: u32, source: Option<u32>) -> Result<(), Panicked>
    requires able { W.refused live.old ≡ false }
    requires stands { W.Stands live.old }
    requires within { number < (W.records live.old).map.user_frames }
    requires source { IfSome source (IsUserFrame (W.records live.old)) }
    ensures ok { OnOk result (held_by W.records W.words W.disk W.rest live.new ≡ filled (held_by W.records W.words W.disk W.rest live.old) number source 1024) }
    ensures err { OnErr result (IsPartly (filled (held_by W.records W.words W.disk W.rest live.old) number source) (held_by W.records W.words W.disk W.rest live.new)) }
    ensures stays { OnOk result (W.refused live.new ≡ false) }
    ensures cause { OnErr result (W.refused live.new ≡ true) }
    ensures unstored { StaysUnstored (W.made live.old) (W.made live.new)
        (held_by W.records W.words W.disk W.rest live.old) (held_by W.records W.words W.disk W.rest live.new) }
    ensures allowed { OnErr result (W.may_refuse (W.rest live.old) ≡ true) }
    ensures still_stands { W.Stands live.new }
    ensures place { W.place live.new ≡ W.place live.old }
{
    let frame = live.pool_base() + number;
    match source {
        Some(from) => live.copy_frame(from, frame),
        None => live.zero_frame(frame),
    }
}

// Names a page of a slot as the owner of a user frame.
fn claim_frame<W: Writer>(live: &mut W, slot: u32, page: u32, number: u32) -> Result<(), Panicked>
    requires able { W.refused live.old ≡ false }
    requires stands { W.Stands live.old }
    requires slot { slot < 16 }
    requires page { page < 2 ^ 20 }
    requires within { number < (W.records live.old).map.user_frames }
    ensures ok { OnOk result (held_by W.records W.words W.disk W.rest live.new
        ≡ stored (held_by W.records W.words W.disk W.rest live.old) ((W.records live.old).map.area_base + 10) number (claim_of slot page)) }
    ensures err { OnErr result (held_by W.records W.words W.disk W.rest live.new ≡ held_by W.records W.words W.disk W.rest live.old) }
    ensures stays { OnOk result (W.refused live.new ≡ false) }
    ensures cause { OnErr result (W.refused live.new ≡ true) }
    ensures unstored { StaysUnstored (W.made live.old) (W.made live.new)
        (held_by W.records W.words W.disk W.rest live.old) (held_by W.records W.words W.disk W.rest live.new) }
    ensures allowed { OnErr result (W.may_refuse (W.rest live.old) ≡ true) }
    ensures still_stands { W.Stands live.new }
    ensures place { W.place live.new ≡ W.place live.old }
{
    let owners = live.area_base() + OWNERS / FRAME_WORDS;
    live.direct_word(owners, number, claim_word(slot, page))
}

// Stores the entry by which a page of a slot lies in a user frame.
fn enter_page<W: Writer>(
    live: &mut W,
    slot: u32,
    page: u32,
    rights: Rights,
    number: u32,
) -> Result<(), Panicked>
    requires able { W.refused live.old ≡ false }
    requires stands { W.Stands live.old }
    requires slot { slot < 16 }
    requires within { number < (W.records live.old).map.user_frames }
    ensures ok { OnOk result (held_by W.records W.words W.disk W.rest live.new ≡ stored (held_by W.records W.words W.disk W.rest live.old)
        ((W.records live.old).map.area_base + table_frame slot (table_of page)) (page % 1024)
        (leaf_word ((W.records live.old).map.pool_base + number) rights)) }
    ensures err { OnErr result (held_by W.records W.words W.disk W.rest live.new ≡ held_by W.records W.words W.disk W.rest live.old) }
    ensures stays { OnOk result (W.refused live.new ≡ false) }
    ensures cause { OnErr result (W.refused live.new ≡ true) }
    ensures unstored { StaysUnstored (W.made live.old) (W.made live.new)
        (held_by W.records W.words W.disk W.rest live.old) (held_by W.records W.words W.disk W.rest live.new) }
    ensures allowed { OnErr result (W.may_refuse (W.rest live.old) ≡ true) }
    ensures still_stands { W.Stands live.new }
    ensures place { W.place live.new ≡ W.place live.old }
{
    let table = frame_of_table(live, slot, table_of(page));
    let frame = live.pool_base() + number;
    live.direct_word(table, page % FRAME_WORDS, leaf(frame, rights))
}

// The table that has the entry of a page of low or of high addresses.
const fn table_of(page: u32) -> u32
    ensures is { result ≡ table_of page }
    ensures fits { result < 3 }
{
    if page / FRAME_WORDS == 0 { 1 } else { 2 }
}

// The frame of memory of a table of a slot.
fn frame_of_table<W: Writer>(live: &W, slot: u32, table: u32) -> u32
    requires slot { slot < 16 }
    requires table { table < 3 }
    ensures { result ≡ (W.records live.now).map.area_base + table_frame slot table }
{
    live.area_base() + (FIRST_TABLE + TABLES_OF_SLOT * slot + table)
}

/// Makes the tables of a slot, in which no process goes on, those of no page: the root leads to the two other tables, and
/// all other words are 0. A word that is so already costs no store.
///
/// At `Panicked` some words are so, and the others are what they were.
pub(crate) fn clear_tables<W: Writer>(live: &mut W, slot: u32) -> Result<(), Panicked>
    requires able { W.refused live.old ≡ false }
    requires stands { W.Stands live.old }
    requires slot { slot < 16 }
    requires open { live_one ((W.records live.old).procs slot) ≡ None }
    ensures ok { OnOk result (AreTablesBare (held_by W.records W.words W.disk W.rest live.old)
        (held_by W.records W.words W.disk W.rest live.new) slot) }
    ensures err { OnErr result (AreTablesPartlyBare (held_by W.records W.words W.disk W.rest live.old)
        (held_by W.records W.words W.disk W.rest live.new) slot) }
    ensures prepares { OnlyPrepares slot (held_by W.records W.words W.disk W.rest live.old) (held_by W.records W.words W.disk W.rest live.new) }
    ensures stays { OnOk result (W.refused live.new ≡ false) }
    ensures cause { OnErr result (W.refused live.new ≡ true) }
    ensures unstored { StaysUnstored (W.made live.old) (W.made live.new)
        (held_by W.records W.words W.disk W.rest live.old) (held_by W.records W.words W.disk W.rest live.new) }
    ensures allowed { OnErr result (W.may_refuse (W.rest live.old) ≡ true) }
    ensures still_stands { W.Stands live.new }
    ensures place { W.place live.new ≡ W.place live.old }
{
    for table in 0..TABLES_OF_SLOT {
        clear_table(live, slot, table)?;
    }
    Ok(())
}

// Does so with one of the tables.
fn clear_table<W: Writer>(live: &mut W, slot: u32, table: u32) -> Result<(), Panicked>
    requires able { W.refused live.old ≡ false }
    requires stands { W.Stands live.old }
    requires slot { slot < 16 }
    requires table { table < 3 }
    requires unused { live_one ((W.records live.old).procs slot) ≡ None }
    ensures ok { OnOk result (AreWordsBare (held_by W.records W.words W.disk W.rest live.old) (held_by W.records W.words W.disk W.rest live.new) slot (1024 * table) 1024) }
    ensures err { OnErr result (AreFirstBare (held_by W.records W.words W.disk W.rest live.old) (held_by W.records W.words W.disk W.rest live.new) slot (1024 * table)) }
    ensures prepares { OnlyPrepares slot (held_by W.records W.words W.disk W.rest live.old) (held_by W.records W.words W.disk W.rest live.new) }
    ensures stays { OnOk result (W.refused live.new ≡ false) }
    ensures cause { OnErr result (W.refused live.new ≡ true) }
    ensures unstored { StaysUnstored (W.made live.old) (W.made live.new)
        (held_by W.records W.words W.disk W.rest live.old) (held_by W.records W.words W.disk W.rest live.new) }
    ensures allowed { OnErr result (W.may_refuse (W.rest live.old) ≡ true) }
    ensures still_stands { W.Stands live.new }
    ensures place { W.place live.new ≡ W.place live.old }
{
    for word in 0..FRAME_WORDS {
        clear_word(live, slot, table, word)?;
    }
    Ok(())
}

// Does so with one of the words.
fn clear_word<W: Writer>(live: &mut W, slot: u32, table: u32, word: u32) -> Result<(), Panicked>
    requires able { W.refused live.old ≡ false }
    requires stands { W.Stands live.old }
    requires slot { slot < 16 }
    requires table { table < 3 }
    requires word { word < 1024 }
    requires unused { live_one ((W.records live.old).procs slot) ≡ None }
    ensures ok { OnOk result (AreWordsBare (held_by W.records W.words W.disk W.rest live.old) (held_by W.records W.words W.disk W.rest live.new) slot (1024 * table + word) 1) }
    ensures err { OnErr result (held_by W.records W.words W.disk W.rest live.new ≡ held_by W.records W.words W.disk W.rest live.old) }
    ensures prepares { OnlyPrepares slot (held_by W.records W.words W.disk W.rest live.old) (held_by W.records W.words W.disk W.rest live.new) }
    ensures stays { OnOk result (W.refused live.new ≡ false) }
    ensures cause { OnErr result (W.refused live.new ≡ true) }
    ensures unstored { StaysUnstored (W.made live.old) (W.made live.new)
        (held_by W.records W.words W.disk W.rest live.old) (held_by W.records W.words W.disk W.rest live.new) }
    ensures allowed { OnErr result (W.may_refuse (W.rest live.old) ≡ true) }
    ensures still_stands { W.Stands live.new }
    ensures place { W.place live.new ≡ W.place live.old }
{
    let bare = bare_word(live, slot, table, word);
    if live.table_word(slot, table, word) == bare {
        return Ok(());
    }
    let frame = frame_of_table(live, slot, table);
    live.direct_word(frame, word, bare)
}

// The word that stands there in the tables of a slot that has no page.
fn bare_word<W: Writer>(live: &W, slot: u32, table: u32, word: u32) -> u32
    requires stands { W.Stands live.now }
    requires slot { slot < 16 }
    ensures { result ≡ bare_word (W.records live.now).map.area_base slot table word }
{
    match (table, word) {
        (0, 0) => pointer(frame_of_table(live, slot, 1)),
        (0, 511) => pointer(frame_of_table(live, slot, 2)),
        _ => 0,
    }
}
