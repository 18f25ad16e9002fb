//! Pages that are prepared for a process and for its child, with each store refused, and bytes of it that are stored.
ghost use Rattle.std.specs.Prelude.{◌≡◌, ◌<◌, ◌≤◌, true, None, IfSome, length};
ghost use Rattle.ow_plant.specs.State.{IsArmed};
ghost use Rattle.record_layouts.specs.Held.{IsCommittable, Records};

use crate::plants::{differ_there, machine, record_words, set_words};
use address_space::{Efault, can_read, can_write, copy_space, grow, pages, put_user, user_bytes};
use frame_table::{free_frames, nth_free, page_frame};
use intent_store::Live;
use ow_base::{Came, WordSource};
use ow_plant::Plant;
use record_layouts::{AnyRec, AreaView, MemoryMap, Patch, ProcRec, RecordId, RecordView, Writer};
use std::alloc::{AllocError, Global};
use std::test::Fail;
use test_fixtures::{HEAD, HIGH_2, LOW_2, MAP, OWNER_0, PROC, PROC_2, ROOT_2, sealed};

// How many user frames there are.
const USER_FRAMES: u32 = 16;

const USERS: MemoryMap = MemoryMap {
    user_frames: USER_FRAMES,
    sectors: 4,
    ..MAP
};

// The slot of the process, and that of its child, in which another one has ended.
const SLOT: u32 = 2;

const OTHER: u32 = 5;

// More stores than any trap makes here.
const UNREFUSED: u32 = u32::MAX;

// The first word of the user frames, and of the other slot's record and tables.
const USERS_0: u32 = 128 * 1024;

const PROC_5: u32 = 1664;

const ROOT_5: u32 = 31 * 1024;

const LOW_5: u32 = 32 * 1024;

const HIGH_5: u32 = 33 * 1024;

// The pages of the process, one of code, one of heap and four of stack, and the user frame of each.
const PAGES: [(u32, u32); 6] = [
    (16, 1),
    (17, 2),
    (0x7_fffc, 4),
    (0x7_fffd, 5),
    (0x7_fffe, 7),
    (0x7_ffff, 8),
];

// The user frames that are free, as frames of memory.
const FREE: [u32; 10] = [129, 132, 135, 138, 139, 140, 141, 142, 143, 144];

// Words of the area. Owner words of free frames name pages of the other slot, pages behind the heap, to which the tables
// still lead, a page that has another frame, and no page; the tables of the other slot are those of no process.
const WORDS: [(u32, &[u32]); 11] = [
    (
        OWNER_0 as u32,
        &[
            0x60_0010,
            0x30_0010,
            0x30_0011,
            0x30_0012,
            0x37_fffc,
            0x37_fffd,
            0xffff_ffff,
            0x37_fffe,
            0x37_ffff,
            0x30_0013,
            0x60_0011,
            0x30_0010,
            0,
            0x10_0010,
            0x110_0000,
            0x67_fffc,
        ],
    ),
    (ROOT_2 as u32, &[0x6001]),
    (ROOT_2 as u32 + 511, &[0x6401]),
    (LOW_2 as u32 + 16, &[0x2_085b, 0x2_0cd7, 0x2_10d7, 0x2_28d7]),
    (
        HIGH_2 as u32 + 1020,
        &[0x2_14d7, 0x2_18d7, 0x2_20d7, 0x2_24d7],
    ),
    (ROOT_5, &[0x6001, 0x5a5a_5a5a]),
    (ROOT_5 + 511, &[0x8401]),
    (LOW_5 + 16, &[0x2_085b, 0x2_04d7, 0x2_28d7]),
    (LOW_5 + 1023, &[7]),
    (HIGH_5, &[0x8801]),
    (HIGH_5 + 1020, &[0x2_14d7, 0, 0, 0xffff_ffff]),
];

// The word of the user frames that has this number, counted from their first: one of 16 is not 0, and of these no two
// are the same.
fn filling(number: u32) -> u32 {
    if number % 16 == 0 {
        number.wrapping_add(1).wrapping_mul(0x9e37_79b1)
    } else {
        0
    }
}

// Fills the user frames; whether no store was refused.
fn fill_frames(plant: &mut Plant) -> bool
    requires armed { IsArmed plant.old }
    requires free { plant.old.refusal ≡ None }
    ensures armed { IsArmed plant.new }
    ensures free { result ≡ true → plant.new.refusal ≡ None }
{
    for place in 0..64 * USER_FRAMES {
        let number = 16 * place;
        if !set_words(plant, USERS_0 + number, &[filling(number)]) {
            return false;
        }
    }
    true
}

// Sets words of the area; whether no store was refused.
fn fill_area(plant: &mut Plant) -> bool
    requires armed { IsArmed plant.old }
    requires free { plant.old.refusal ≡ None }
    ensures armed { IsArmed plant.new }
    ensures free { result ≡ true → plant.new.refusal ≡ None }
{
    for (number, words) in WORDS {
        if !set_words(plant, number % 0x1_0000, words) {
            return false;
        }
    }
    true
}

// A machine with a process, and with the words of others, that refuses this store of trap 1.
fn prepare(plant: &mut Plant) -> bool
    requires armed { IsArmed plant.old }
    requires free { plant.old.refusal ≡ None }
    ensures armed { IsArmed plant.new }
    ensures free { result ≡ true → plant.new.refusal ≡ None }
{
    let process = sealed::<128>(&[PROC, 1, 7, 0, 0, 0, 1, 0, 4096]);
    let ended = sealed::<128>(&[PROC, 3, 9, 7, 0, 0, 0, 0, 0, 0, 0, 0, 0x10a]);
    set_words(plant, 0, &sealed::<16>(&[HEAD, 1, 5, 1, 10]))
        && set_words(plant, PROC_2 as u32, &process)
        && set_words(plant, PROC_5, &ended)
        && fill_area(plant)
        && fill_frames(plant)
}

// What is asked for: two pages more for the process, or its pages for a child.
#[derive(Clone, Copy, Debug, PartialEq, Eq)]
enum Call {
    Grow,
    Copy,
}

// Two pages more for the process; whether this was answered by Ok.
fn grow_by_two(plant: &mut Plant) -> bool
    requires armed { IsArmed plant.old }
    requires free { plant.old.refusal ≡ None }
    ensures armed { IsArmed plant.new }
    ensures free { result ≡ true → plant.new.refusal ≡ None }
{
    let mut live = Live::new(plant);
    if live.head().is_none() || live.user_frames() != USER_FRAMES {
        return false;
    }
    let Some(process) = live.live_proc(SLOT) else {
        return false;
    };
    // Pages of code begin at 16, and four pages are the stack's: the heap can end at page 1,024.
    if pages(&process) > 1010 || free_frames(&live, USER_FRAMES) < 2 {
        return false;
    }
    grow(&mut live, SLOT, 2).is_ok()
}

// The pages of the process for a child; whether this was answered by Ok.
fn copy_for_child(plant: &mut Plant) -> bool
    requires armed { IsArmed plant.old }
    requires free { plant.old.refusal ≡ None }
    ensures armed { IsArmed plant.new }
    ensures free { result ≡ true → plant.new.refusal ≡ None }
{
    let mut live = Live::new(plant);
    if live.head().is_none() || live.user_frames() != USER_FRAMES {
        return false;
    }
    let Some(process) = live.live_proc(SLOT) else {
        return false;
    };
    let free = free_frames(&live, USER_FRAMES);
    if live.live_proc(OTHER).is_some() || free < pages(&process) {
        return false;
    }
    copy_space(&mut live, SLOT, OTHER).is_ok()
}

// A call in a trap of its own; whether it was answered by Ok.
fn call_in_trap(plant: &mut Plant, call: Call) -> bool
    requires armed { IsArmed plant.old }
    requires free { plant.old.refusal ≡ None }
    ensures armed { IsArmed plant.new }
    ensures free { result ≡ true → plant.new.refusal ≡ None }
{
    plant.enter(Came::Kernel, 1);
    match call {
        Call::Grow => grow_by_two(plant),
        Call::Copy => copy_for_child(plant),
    }
}

// The frame has the words with which this user frame was filled.
fn has_words(plant: &Plant, frame: u32, number: u32) -> bool {
    for word in 0..1024 {
        let filled = filling(number.wrapping_mul(1024).wrapping_add(word));
        if WordSource::load(plant, frame, word) != Some(filled) {
            return false;
        }
    }
    true
}

// The pages of the process in a slot have frames with the words that the pages had.
fn has_pages(plant: &Plant, slot: u32) -> bool
    requires { slot < 16 }
{
    let view = AreaView::new(plant, USERS);
    for (page, number) in PAGES {
        match page_frame(&view, slot, page % 0x10_0000) {
            Some(frame) if has_words(plant, frame, number) => {}
            _ => return false,
        }
    }
    true
}

// The free frames are the ones that were.
fn are_free_as_before(plant: &Plant) -> bool {
    let view = AreaView::new(plant, USERS);
    for (i, frame) in FREE.into_iter().enumerate() {
        if nth_free(&view, USER_FRAMES, i as u32) != Some(frame) {
            return false;
        }
    }
    free_frames(&view, USER_FRAMES) == 10 && nth_free(&view, USER_FRAMES, 10).is_none()
}

// What a call came to: whether it was answered by Ok, how many stores it made, and whether the process has the pages that
// it had, the same frames are free, and no word of a record changed.
#[derive(Clone, Copy, Debug, PartialEq, Eq)]
struct Outcome {
    done: bool,
    stores: u32,
    pages: bool,
    free: bool,
    records: bool,
}

// A call in a trap of its own, and whether no word of a record changed, of the owners alone.
fn call_beside(alloc: Global, plant: &mut Plant, call: Call) -> Result<(bool, bool), AllocError>
    requires armed { IsArmed plant.old }
    requires free { plant.old.refusal ≡ None }
    ensures armed { IsArmed plant.new }
{
    let words = record_words(alloc, plant)?;
    let done = call_in_trap(plant, call);
    let after = record_words(alloc, plant)?;
    Ok((done, differ_there(&words, &after, &[(OWNER_0, 16)])))
}

// The call whose store of this number is refused.
fn trial(alloc: Global, call: Call, store: u32) -> Result<Option<Outcome>, AllocError> {
    let mut plant = machine(alloc, USER_FRAMES, store)?;
    if !prepare(&mut plant) {
        return Ok(None);
    }
    let (done, records) = call_beside(alloc, &mut plant, call)?;
    Ok(Some(Outcome {
        done,
        stores: plant.stores_made(),
        pages: has_pages(&plant, SLOT),
        free: are_free_as_before(&plant),
        records,
    }))
}

// The stores of a page: its words, the owner word and the table word.
const PAGE_STORES: u32 = 1026;

// How many stores a call makes before its first page, and for how many pages.
fn shape_of(call: Call) -> (u32, u32) {
    match call {
        Call::Grow => (0, 2),
        // Ten words of the other slot's tables are stale.
        Call::Copy => (10, 6),
    }
}

// Refuses each store of a call in a trial of its own, and none in the last trial; the first store whose trial comes to
// something else than it should, with that.
fn first_wrong(alloc: Global, call: Call) -> Result<Option<(u32, Option<Outcome>)>, AllocError> {
    let (first, pages) = shape_of(call);
    let stores = first.wrapping_add(PAGE_STORES.wrapping_mul(pages));
    for store in 0..=stores {
        let wanted = Outcome {
            done: store == stores,
            stores: store,
            pages: true,
            free: true,
            records: true,
        };
        let got = trial(alloc, call, store)?;
        if got != Some(wanted) {
            return Ok(Some((store, got)));
        }
    }
    Ok(None)
}

#[test]
fn no_refused_store_moves_a_page(rt: HostRuntime) -> Result<(), Fail> {
    for call in [Call::Grow, Call::Copy] {
        let wrong = first_wrong(rt.alloc(), call)?;
        assert_eq!(rt; wrong, None, "{call:?}");
    }
    Ok(())
}

// A patch that sets the record of a process with two pages more of heap, or of a child.
fn patch_of(call: Call) -> Option<Patch>
    ensures { IfSome result (λ patch. (r : Records) → IsCommittable r patch.items.items) }
{
    let mut patch = Patch::new();
    match call {
        Call::Grow => {
            let words = sealed(&[PROC, 1, 7, 0, 0, 0, 1, 0, 3 * 4096]);
            patch.put(
                RecordId::Proc(SLOT),
                AnyRec::Proc(ProcRec::from_words(&words)?),
            );
        }
        Call::Copy => {
            let words = sealed(&[PROC, 1, 8, 7, 0, 0, 1, 0, 4096]);
            patch.put(
                RecordId::Proc(OTHER),
                AnyRec::Proc(ProcRec::from_words(&words)?),
            );
        }
    }
    Some(patch)
}

// Commits the patch in a trap of its own; whether this was answered by Ok.
fn commit_in_trap(plant: &mut Plant, patch: &Patch) -> bool
    requires armed { IsArmed plant.old }
    requires free { plant.old.refusal ≡ None }
    requires patch { (r : Records) → IsCommittable r patch.now.items.items }
    ensures armed { IsArmed plant.new }
{
    plant.enter(Came::Kernel, 1);
    let mut live = Live::new(plant);
    live.head().is_some() && live.commit(&patch.view()).is_ok()
}

// A machine on which a call was answered by Ok, and the record was set that counts its pages.
fn counted(alloc: Global, call: Call) -> Result<Option<Plant>, AllocError> {
    let mut plant = machine(alloc, USER_FRAMES, UNREFUSED)?;
    let Some(patch) = patch_of(call) else {
        return Ok(None);
    };
    if prepare(&mut plant) && call_in_trap(&mut plant, call) && commit_in_trap(&mut plant, &patch) {
        Ok(Some(plant))
    } else {
        Ok(None)
    }
}

#[test]
fn pages_of_zeros_are_counted(rt: HostRuntime) -> Result<(), Fail> {
    let plant = counted(rt.alloc(), Call::Grow)?.ok_or("is not refused")?;
    let view = AreaView::new(&plant, USERS);
    let mut room = [0xee; 8192];
    let read = user_bytes(&view, SLOT, 0x1_2000, &mut room);
    assert_eq!(rt; read, Ok(()));
    assert_eq!(rt; room == [0; 8192], true);
    assert_eq!(rt; can_read(&view, SLOT, 0x1_2000, 8193), Err(Efault));
    assert_eq!(rt; has_pages(&plant, SLOT), true);
    // As many frames are taken as there are pages, so no two pages have the same one.
    assert_eq!(rt; free_frames(&view, USER_FRAMES), 8);
    Ok(())
}

// Whether a word of the tables of the child is one of a page or leads to a table.
fn is_of_page(table: u32, word: u32) -> bool {
    match table {
        0 => word == 0 || word == 511,
        1 => word == 16 || word == 17,
        _ => word >= 1020,
    }
}

#[test]
fn a_child_has_pages_of_its_own(rt: HostRuntime) -> Result<(), Fail> {
    let plant = counted(rt.alloc(), Call::Copy)?.ok_or("is not refused")?;
    let view = AreaView::new(&plant, USERS);
    assert_eq!(rt; has_pages(&plant, SLOT), true);
    assert_eq!(rt; has_pages(&plant, OTHER), true);
    assert_eq!(rt; free_frames(&view, USER_FRAMES), 4);
    for table in 0..3 {
        for word in 0..1024 {
            let is_clear = view.table_word(OTHER, table, word) == 0;
            assert_eq!(rt; is_clear, !is_of_page(table, word), "{table} {word}");
        }
    }
    Ok(())
}

// Stores bytes of the process in a trap of its own; whether this was answered by Ok.
fn put_in_trap(plant: &mut Plant, addr: u32, bytes: &[u8]) -> bool
    requires armed { IsArmed plant.old }
    requires free { plant.old.refusal ≡ None }
    requires few { length bytes.now ≤ 100 }
    ensures armed { IsArmed plant.new }
{
    plant.enter(Came::Kernel, 1);
    let mut live = Live::new(plant);
    live.head().is_some()
        && can_write(&live, SLOT, addr, bytes.len() as u32).is_ok()
        && put_user(&mut live, SLOT, addr, bytes).is_ok()
}

// Where bytes are stored, and how many of them stand after each store.
const PUTS: [(u32, &[u8], &[usize]); 4] = [
    (0x7fff_cffd, b"abcdefghij", &[0, 3, 7, 10]),
    (0x7fff_cffc, b"abcdefgh", &[0, 4, 8]),
    (0x0001_1001, b"ab", &[0, 2]),
    (0x0001_1ffe, b"", &[0]),
];

// The bytes of the process from 16 before an address on.
fn around(plant: &Plant, addr: u32) -> [u8; 40] {
    let view = AreaView::new(plant, USERS);
    let mut room = [0; 40];
    match user_bytes(&view, SLOT, addr.wrapping_sub(16), &mut room) {
        Ok(()) => room,
        Err(_) => [0; 40],
    }
}

// Stores bytes where this store is refused: whether it answered Ok, and the bytes around before and after.
fn put_trial(
    alloc: Global,
    addr: u32,
    bytes: &[u8],
    store: u32,
) -> Result<Option<(bool, [u8; 40], [u8; 40])>, AllocError>
    requires few { length bytes.now ≤ 100 }
{
    let mut plant = machine(alloc, USER_FRAMES, store)?;
    if !prepare(&mut plant) {
        return Ok(None);
    }
    let before = around(&plant, addr);
    let done = put_in_trap(&mut plant, addr, bytes);
    Ok(Some((done, before, around(&plant, addr))))
}

#[test]
fn the_first_bytes_are_stored(rt: HostRuntime) -> Result<(), Fail> {
    for (addr, bytes, stored) in PUTS {
        let bytes = &bytes[..bytes.len().min(20)];
        for (store, count) in stored.iter().enumerate() {
            let got = put_trial(rt.alloc(), addr, bytes, store as u32)?;
            let (done, mut wanted, after) = got.ok_or("is not refused")?;
            let count = (*count).min(bytes.len());
            wanted[16..16 + count].copy_from_slice(&bytes[..count]);
            assert_eq!(rt; after.as_slice(), wanted.as_slice(), "{addr:x} {store}");
            assert_eq!(rt;
                done,
                store.wrapping_add(1) == stored.len(),
                "{addr:x} {store}"
            );
        }
    }
    Ok(())
}
