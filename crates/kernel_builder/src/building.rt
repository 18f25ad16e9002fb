//! The builder: it fills the frames of a new kernel as a blueprint says.
ghost use Rattle.std.specs.Prelude.{◌≡◌, ◌+◌, ◌*◌, ◌^◌, ◌<◌, ◌≤◌, true, Some, OnOk, OnErr, IfSome};
ghost use Rattle.record_layouts.specs.Held.{beside};
ghost use Rattle.record_layouts.specs.Overlay.{HasArea, area_at};
ghost use Rattle.ow_plant.specs.declared.refusal.Refusal.TheVariants.{Store};
ghost use Rattle.kernel_builder.specs.Counts.{frame_words, most_built, most_in_area, most_in_pages, slot_words, tables_words};
ghost use Rattle.kernel_builder.specs.Reading.{IsReadAs};
ghost use Rattle.kernel_builder.specs.Plan.{HasFrames, claim_by, entry_word, owner_word, page_entry, root_entry};
ghost use Rattle.kernel_builder.specs.Sets.{HasFrame, HasPool, IsBuilt, IsFilled, outside, with_frame, with_owners, with_pages, with_slot, with_table, with_tables, without, without_pool};

use crate::blueprint::{Blueprint, Holder, Placed};
use crate::setting::set_records;
use frame_table::claim_word;
use ow_base::{FRAME_WORDS, Panicked};
use record_layouts::{FIRST_TABLE, GATE, MemoryMap, OWNERS, SLOTS, TABLES_OF_SLOT};
use sv32_tables::{leaf, pointer};
use word_store::{WordStore, store_area};

// The first page of the high table.
const HIGH: u32 = 0x7fc00;

// The entry that leads to a page.
fn entry_of(map: &MemoryMap, placed: Option<Placed>) -> u32
    requires numbered { map.now.pool_base + map.now.user_frames ≤ 2 ^ 22 }
    requires there { IfSome placed (λ p. p.frame < map.now.user_frames) }
    ensures { result ≡ page_entry map.now.pool_base placed }
{
    match placed {
        Some(placed) => leaf(map.pool_base + placed.frame, placed.rights),
        None => 0,
    }
}

// A word of the root of a slot, whose tables begin at this frame.
fn root(frame: u32, word: u32) -> u32
    requires { frame + 3 ≤ 2 ^ 22 }
    ensures { result ≡ root_entry frame word }
{
    match word {
        0 => pointer(frame + 1),
        511 => pointer(frame + 2),
        _ => 0,
    }
}

// A word of a table of a slot.
#[tactic(auto, unfolding(crate::specs::Plan::entry_word))]
fn entry<B: Blueprint>(map: &MemoryMap, blueprint: &B, slot: u32, table: u32, word: u32) -> u32
    requires low { map.now.area_base + 64 ≤ 2 ^ 22 }
    requires numbered { map.now.pool_base + map.now.user_frames ≤ 2 ^ 22 }
    requires frames { B.frames blueprint.now ≡ map.now.user_frames }
    requires slot { slot < 16 }
    requires table { table < 3 }
    requires word { word < 1024 }
    requires stands { B.stands blueprint.now }
    ensures { result ≡ entry_word map.now (B.plan blueprint.now) slot table word }
{
    match table {
        0 => root(map.area_base + (FIRST_TABLE + TABLES_OF_SLOT * slot), word),
        1 => entry_of(map, blueprint.page(slot, word)),
        _ => entry_of(map, blueprint.page(slot, HIGH + word)),
    }
}

// Sets all words of a table of a slot.
#[tactic(auto, using(crate::proofs::Filling::table_none, crate::proofs::Filling::table_more))]
fn set_table<B: Blueprint, S: WordStore>(
    store: &mut S,
    map: &MemoryMap,
    blueprint: &B,
    slot: u32,
    table: u32,
) -> Result<(), Panicked>
    requires able { S.able store.old ≡ true }
    requires area { HasArea (S.words store.old) map.now.area_base }
    requires low { map.now.area_base + 64 ≤ 2 ^ 22 }
    requires numbered { map.now.pool_base + map.now.user_frames ≤ 2 ^ 22 }
    requires frames { B.frames blueprint.now ≡ map.now.user_frames }
    requires slot { slot < 16 }
    requires table { table < 3 }
    requires stands { B.stands blueprint.now }
    ensures ok { OnOk result (area_at (S.words store.new) map.now.area_base ≡ with_table map.now (B.plan blueprint.now) (area_at (S.words store.old) map.now.area_base) slot table 1024) }
    ensures there { HasArea (S.words store.new) map.now.area_base }
    ensures beside { beside map.now.area_base (S.words store.new) ≡ beside map.now.area_base (S.words store.old) }
    ensures rest { S.rest store.new ≡ S.rest store.old }
    ensures stays { OnOk result (S.able store.new ≡ true) }
    ensures cause { OnErr result (S.refusal store.new ≡ Some Store) }
    ensures counted { S.made store.new ≤ S.made store.old + frame_words }
    ensures allowed { OnErr result (S.may_refuse (S.rest store.old) ≡ true) }
    ensures place { S.place store.new ≡ S.place store.old }
{
    let first = FRAME_WORDS * (FIRST_TABLE + TABLES_OF_SLOT * slot + table);
    for word in 0..FRAME_WORDS {
        store_area(
            store,
            map.area_base,
            first + word,
            entry(map, blueprint, slot, table, word),
        )?;
    }
    Ok(())
}

// Sets the three tables of a slot.
fn set_slot<B: Blueprint, S: WordStore>(
    store: &mut S,
    map: &MemoryMap,
    blueprint: &B,
    slot: u32,
) -> Result<(), Panicked>
    requires able { S.able store.old ≡ true }
    requires area { HasArea (S.words store.old) map.now.area_base }
    requires low { map.now.area_base + 64 ≤ 2 ^ 22 }
    requires numbered { map.now.pool_base + map.now.user_frames ≤ 2 ^ 22 }
    requires frames { B.frames blueprint.now ≡ map.now.user_frames }
    requires slot { slot < 16 }
    requires stands { B.stands blueprint.now }
    ensures ok { OnOk result (area_at (S.words store.new) map.now.area_base ≡ with_slot map.now (B.plan blueprint.now) (area_at (S.words store.old) map.now.area_base) slot) }
    ensures there { HasArea (S.words store.new) map.now.area_base }
    ensures beside { beside map.now.area_base (S.words store.new) ≡ beside map.now.area_base (S.words store.old) }
    ensures rest { S.rest store.new ≡ S.rest store.old }
    ensures stays { OnOk result (S.able store.new ≡ true) }
    ensures cause { OnErr result (S.refusal store.new ≡ Some Store) }
    ensures counted { S.made store.new ≤ S.made store.old + slot_words }
    ensures allowed { OnErr result (S.may_refuse (S.rest store.old) ≡ true) }
    ensures place { S.place store.new ≡ S.place store.old }
{
    set_table(store, map, blueprint, slot, 0)?;
    set_table(store, map, blueprint, slot, 1)?;
    set_table(store, map, blueprint, slot, 2)
}

// Sets the tables of all live slots.
#[tactic(auto, using(crate::proofs::Filling::tables_none, crate::proofs::Filling::tables_live, crate::proofs::Filling::tables_free))]
fn set_tables<B: Blueprint, S: WordStore>(
    store: &mut S,
    map: &MemoryMap,
    blueprint: &B,
) -> Result<(), Panicked>
    requires able { S.able store.old ≡ true }
    requires area { HasArea (S.words store.old) map.now.area_base }
    requires low { map.now.area_base + 64 ≤ 2 ^ 22 }
    requires numbered { map.now.pool_base + map.now.user_frames ≤ 2 ^ 22 }
    requires frames { B.frames blueprint.now ≡ map.now.user_frames }
    requires stands { B.stands blueprint.now }
    ensures ok { OnOk result (area_at (S.words store.new) map.now.area_base ≡ with_tables map.now (B.plan blueprint.now) (area_at (S.words store.old) map.now.area_base) SLOTS) }
    ensures there { HasArea (S.words store.new) map.now.area_base }
    ensures beside { beside map.now.area_base (S.words store.new) ≡ beside map.now.area_base (S.words store.old) }
    ensures rest { S.rest store.new ≡ S.rest store.old }
    ensures stays { OnOk result (S.able store.new ≡ true) }
    ensures cause { OnErr result (S.refusal store.new ≡ Some Store) }
    ensures counted { S.made store.new ≤ S.made store.old + tables_words }
    ensures allowed { OnErr result (S.may_refuse (S.rest store.old) ≡ true) }
    ensures place { S.place store.new ≡ S.place store.old }
{
    for slot in 0..SLOTS {
        if blueprint.is_live(slot) {
            set_slot(store, map, blueprint, slot)?;
        }
    }
    Ok(())
}

// The word that names what a frame holds.
fn claim(holder: Option<Holder>) -> u32
    requires { IfSome holder (λ h. (h.slot < 16) × (h.page < 2 ^ 19)) }
    ensures { result ≡ claim_by holder }
{
    match holder {
        Some(holder) => claim_word(holder.slot, holder.page),
        None => 0,
    }
}

// The word with this number among those that name owners.
#[tactic(auto, unfolding(crate::specs::Plan::owner_word))]
fn owner<B: Blueprint>(map: &MemoryMap, blueprint: &B, number: u32) -> u32
    requires few { map.now.user_frames ≤ 384 }
    requires stands { B.stands blueprint.now }
    ensures { result ≡ owner_word map.now (B.plan blueprint.now) number }
{
    if number < map.user_frames {
        claim(blueprint.holder(number))
    } else {
        0
    }
}

// Sets all words that name owners.
#[tactic(auto, using(crate::proofs::Filling::owners_none, crate::proofs::Filling::owners_more))]
fn set_owners<B: Blueprint, S: WordStore>(
    store: &mut S,
    map: &MemoryMap,
    blueprint: &B,
) -> Result<(), Panicked>
    requires able { S.able store.old ≡ true }
    requires area { HasArea (S.words store.old) map.now.area_base }
    requires few { map.now.user_frames ≤ 384 }
    requires stands { B.stands blueprint.now }
    ensures ok { OnOk result (area_at (S.words store.new) map.now.area_base ≡ with_owners map.now (B.plan blueprint.now) (area_at (S.words store.old) map.now.area_base) 1024) }
    ensures there { HasArea (S.words store.new) map.now.area_base }
    ensures beside { beside map.now.area_base (S.words store.new) ≡ beside map.now.area_base (S.words store.old) }
    ensures rest { S.rest store.new ≡ S.rest store.old }
    ensures stays { OnOk result (S.able store.new ≡ true) }
    ensures cause { OnErr result (S.refusal store.new ≡ Some Store) }
    ensures counted { S.made store.new ≤ S.made store.old + frame_words }
    ensures allowed { OnErr result (S.may_refuse (S.rest store.old) ≡ true) }
    ensures place { S.place store.new ≡ S.place store.old }
{
    for number in 0..FRAME_WORDS {
        store_area(
            store,
            map.area_base,
            OWNERS + number,
            owner(map, blueprint, number),
        )?;
    }
    Ok(())
}

// Copies a page into a frame.
#[tactic(auto, using(crate::proofs::Copying::frame_none, crate::proofs::Copying::frame_more, crate::proofs::Copying::without_set, crate::proofs::Copying::frame_there))]
fn copy_page<B: Blueprint, S: WordStore>(
    store: &mut S,
    map: &MemoryMap,
    blueprint: &B,
    frame: u32,
    holder: Holder,
) -> Result<(), Panicked>
    requires able { S.able store.old ≡ true }
    requires there { HasFrame (S.words store.old) (map.now.pool_base + frame) }
    requires numbered { map.now.pool_base + frame < 2 ^ 22 }
    requires frame { frame < 384 }
    requires held { (B.plan blueprint.now).holder frame ≡ Some holder }
    requires slot { holder.slot < 16 }
    requires page { holder.page < 2 ^ 19 }
    requires stands { B.stands blueprint.now }
    ensures ok { OnOk result (S.words store.new ≡ with_frame (S.words store.old) (map.now.pool_base + frame) ((B.plan blueprint.now).word_at holder.slot holder.page) 1024) }
    ensures others { without (map.now.pool_base + frame) (S.words store.new) ≡ without (map.now.pool_base + frame) (S.words store.old) }
    ensures there { HasFrame (S.words store.new) (map.now.pool_base + frame) }
    ensures rest { S.rest store.new ≡ S.rest store.old }
    ensures stays { OnOk result (S.able store.new ≡ true) }
    ensures cause { OnErr result (S.refusal store.new ≡ Some Store) }
    ensures counted { S.made store.new ≤ S.made store.old + frame_words }
    ensures allowed { OnErr result (S.may_refuse (S.rest store.old) ≡ true) }
    ensures place { S.place store.new ≡ S.place store.old }
{
    for word in 0..FRAME_WORDS {
        store.store(
            map.pool_base + frame,
            word,
            blueprint.page_word(frame, holder, word),
        )?;
    }
    Ok(())
}

// Copies all pages.
#[tactic(auto, using(crate::proofs::Copying::pages_none, crate::proofs::Copying::pages_held, crate::proofs::Copying::pages_free, crate::proofs::Copying::pool_frame, crate::proofs::Copying::pool_there, crate::proofs::Copying::pool_without))]
fn copy_pages<B: Blueprint, S: WordStore>(
    store: &mut S,
    map: &MemoryMap,
    blueprint: &B,
) -> Result<(), Panicked>
    requires able { S.able store.old ≡ true }
    requires there { HasPool (S.words store.old) map.now }
    requires numbered { map.now.pool_base + map.now.user_frames ≤ 2 ^ 22 }
    requires few { map.now.user_frames ≤ 384 }
    requires stands { B.stands blueprint.now }
    ensures ok { OnOk result (S.words store.new ≡ with_pages map.now (B.plan blueprint.now) (S.words store.old) map.now.user_frames) }
    ensures others { without_pool map.now (S.words store.new) ≡ without_pool map.now (S.words store.old) }
    ensures there { HasPool (S.words store.new) map.now }
    ensures rest { S.rest store.new ≡ S.rest store.old }
    ensures stays { OnOk result (S.able store.new ≡ true) }
    ensures cause { OnErr result (S.refusal store.new ≡ Some Store) }
    ensures counted { S.made store.new ≤ S.made store.old + most_in_pages map.now.user_frames }
    ensures allowed { OnErr result (S.may_refuse (S.rest store.old) ≡ true) }
    ensures place { S.place store.new ≡ S.place store.old }
{
    for frame in 0..map.user_frames {
        if let Some(holder) = blueprint.holder(frame) {
            copy_page(store, map, blueprint, frame, holder)?;
        }
    }
    Ok(())
}

// Sets all words of the area, the gate first.
fn set_area<B: Blueprint, S: WordStore>(
    store: &mut S,
    map: &MemoryMap,
    blueprint: &B,
) -> Result<(), Panicked>
    requires able { S.able store.old ≡ true }
    requires area { HasArea (S.words store.old) map.now.area_base }
    requires low { map.now.area_base + 64 ≤ 2 ^ 22 }
    requires numbered { map.now.pool_base + map.now.user_frames ≤ 2 ^ 22 }
    requires few { map.now.user_frames ≤ 384 }
    requires frames { B.frames blueprint.now ≡ map.now.user_frames }
    requires stands { B.stands blueprint.now }
    ensures ok { OnOk result (IsFilled map.now (B.plan blueprint.now) (area_at (S.words store.old) map.now.area_base) (area_at (S.words store.new) map.now.area_base)) }
    ensures there { HasArea (S.words store.new) map.now.area_base }
    ensures beside { beside map.now.area_base (S.words store.new) ≡ beside map.now.area_base (S.words store.old) }
    ensures rest { S.rest store.new ≡ S.rest store.old }
    ensures stays { OnOk result (S.able store.new ≡ true) }
    ensures cause { OnErr result (S.refusal store.new ≡ Some Store) }
    ensures counted { S.made store.new ≤ S.made store.old + most_in_area }
    ensures allowed { OnErr result (S.may_refuse (S.rest store.old) ≡ true) }
    ensures place { S.place store.new ≡ S.place store.old }
{
    store_area(store, map.area_base, GATE, 0)?;
    set_records(store, map.area_base, blueprint)?;
    set_tables(store, map, blueprint)?;
    set_owners(store, map, blueprint)
}

/// Fills the frames of a kernel as a blueprint says. Nothing is assumed of the words that stood in them.
pub fn build_kernel<B: Blueprint, S: WordStore>(
    store: &mut S,
    map: &MemoryMap,
    blueprint: &B,
) -> Result<(), Panicked>
    requires able { S.able store.old ≡ true }
    requires map { HasFrames (S.words store.old) map.now }
    requires frames { B.frames blueprint.now ≡ map.now.user_frames }
    requires stands { B.stands blueprint.now }
    ensures built { OnOk result (IsBuilt map.now (B.plan blueprint.now) (S.words store.old) (S.words store.new)) }
    ensures read { OnOk result (IsReadAs map.now (B.plan blueprint.now) (S.words store.new)) }
    ensures frames { HasFrames (S.words store.new) map.now }
    ensures outside { outside map.now (S.words store.new) ≡ outside map.now (S.words store.old) }
    ensures rest { S.rest store.new ≡ S.rest store.old }
    ensures stays { OnOk result (S.able store.new ≡ true) }
    ensures cause { OnErr result (S.refusal store.new ≡ Some Store) }
    ensures counted { S.made store.new ≤ S.made store.old + most_built map.now.user_frames }
    ensures allowed { OnErr result (S.may_refuse (S.rest store.old) ≡ true) }
    ensures place { S.place store.new ≡ S.place store.old }
{
    set_area(store, map, blueprint)?;
    copy_pages(store, map, blueprint)
}
