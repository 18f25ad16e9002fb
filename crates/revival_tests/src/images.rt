//! Halves that a kernel left: one small process in the midst of a write, and sixteen that have all user frames.
ghost use Rattle.std.specs.Prelude.{◌≤◌};

use crate::half::Half;
use crate::memories::DeadHalf;
use dead_reader::HandOver;
use ow_base::{AreaId, Bank, Came, Regs};
use std::alloc::{AllocError, Global};

// The words with which records of each kind begin.
const HEAD: u32 = 0x4845_4144;

const PROC: u32 = 0x5052_4f43;

const SIG: u32 = 0x5349_4753;

const DESC: u32 = 0x4f50_454e;

const TERM: u32 = 0x5445_524d;

const ROW: u32 = 0x524f_5753;

const EXIT: u32 = 0x4558_4954;

// The first words of records, owners and user pages.
const PROCS: usize = 1024;

const SIGS: usize = 3 * 1024;

const DESCS: usize = SIGS + 512;

const TERMS: usize = 7 * 1024 + 512;

const ROWS: usize = 8 * 1024;

const OWNERS: usize = 10 * 1024;

const EXITS: usize = 11 * 1024;

const POOL: usize = 128 * 1024;

// The number of the first user frame of half A in memory.
const FIRST_POOL: u32 = 129;

// A process: its slot, its pid, its pages of code and of data, its break, and its first user frame.
#[derive(Clone, Copy)]
struct Live {
    slot: u32,
    pid: u32,
    code: u32,
    data: u32,
    brk: u32,
    first: u32,
}

// Records that say nothing of all slots, descriptions, terminals and rows, and a letter in each row.
fn put_blank(half: &mut Half, next: u32) {
    half.put_record(0, 16, &[HEAD, 1, 6, 5, next]);
    for slot in 0..16usize {
        half.put_record(PROCS + 128 * slot, 128, &[PROC]);
        half.put_record(SIGS + 32 * slot, 32, &[SIG]);
    }
    for i in 0..32usize {
        half.put_record(DESCS + 16 * i, 16, &[DESC]);
    }
    half.put_record(DESCS, 16, &[DESC, 2, 0, 3]);
    for tty in 0..2u32 {
        half.put_record(TERMS + 16 * tty as usize, 16, &[TERM, tty, 1, 65, 0, 3]);
    }
    for place in 0..48u32 {
        half.put_record(ROWS + 24 * place as usize, 24, &[ROW, place, 0x4141_4141]);
    }
    for pid in 0..256usize {
        half.put_record(EXITS + 4 * pid, 4, &[EXIT]);
    }
}

// The number of the word with which the tables of a slot begin.
fn tables_of(slot: u32) -> usize
    ensures { result ≤ 65536 }
{
    1024 * (16usize.wrapping_add(3usize.wrapping_mul(slot as usize)) % 64)
}

// Maps a page of a process to a user frame, whose words are then told by its number.
fn map_page(half: &mut Half, live: &Live, page: u32, number: u32, flags: u32) {
    let table = if page < 1024 { 1024 } else { 2048 };
    let place = tables_of(live.slot) + table + (page % 1024) as usize;
    let frame = number.wrapping_add(FIRST_POOL);
    half.set(place, frame.wrapping_mul(1024).wrapping_add(flags));
    let claim = live.slot.wrapping_add(1).wrapping_mul(0x10_0000);
    let number = (number % 384) as usize;
    half.set(OWNERS + number, claim.wrapping_add(page));
    for word in 0..1024usize {
        half.set(POOL + 1024 * number + word, (number + 7 * word) as u32);
    }
}

// The record of a process outside of calls, its signals, and what its pid names.
fn put_records(half: &mut Half, live: &Live) {
    let mut words = [0; 128];
    words[..3].copy_from_slice(&[PROC, 1, live.pid]);
    words[6..9].copy_from_slice(&[live.code, live.data, live.brk]);
    words[13] = 1;
    for place in 21..117 {
        words[place] = place as u32;
    }
    let slot = (live.slot % 16) as usize;
    half.put_record(PROCS + 128 * slot, 128, &words);
    half.put_record(SIGS + 32 * slot, 32, &[SIG, live.pid, 4, 77]);
    let pid = (live.pid.wrapping_sub(1) % 256) as usize;
    half.put_record(EXITS + 4 * pid, 4, &[EXIT, 1, live.slot]);
}

// A process with its tables and pages.
fn put_live(half: &mut Half, live: &Live) {
    put_records(half, live);
    let root = tables_of(live.slot);
    let table = live.slot.wrapping_mul(3).wrapping_add(18);
    half.set(root, table.wrapping_mul(1024).wrapping_add(1));
    half.set(root + 511, table.wrapping_mul(1024).wrapping_add(1025));
    let values = live.code.wrapping_add(16);
    let end = values
        .wrapping_add(live.data)
        .wrapping_add(live.brk.div_ceil(4096));
    let mut number = live.first;
    for page in 16..end {
        let flags = if page < values { 0x5b } else { 0xd7 };
        map_page(half, live, page, number, flags);
        number = number.wrapping_add(1);
    }
    for page in 0x7_fffc..0x8_0000 {
        map_page(half, live, page, number, 0xd7);
        number = number.wrapping_add(1);
    }
}

// Pid 5 was in a write when the kernel broke.
fn in_a_write() -> HandOver {
    let mut bank = Bank {
        pc: 0x1_0040,
        regs: Regs::new(),
    };
    bank.regs.set(17, 2);
    HandOver {
        trap: 7,
        pid: 5,
        came: Came::Call,
        bank,
    }
}

// A half of 16 user frames with one process, before the pid that comes next.
fn one(alloc: Global, live: Live, next: u32) -> Result<Half, AllocError> {
    let mut half = Half::filled(alloc, AreaId::A, 16, 0)?;
    put_blank(&mut half, next);
    put_live(&mut half, &live);
    Ok(half)
}

/// The process of pid 5 in slot 3, with one page of code, in a half of 16 user frames. It was in a write.
pub(crate) fn small(alloc: Global) -> Result<DeadHalf, AllocError> {
    let live = Live {
        slot: 3,
        pid: 5,
        code: 1,
        data: 0,
        brk: 0,
        first: 0,
    };
    Ok(DeadHalf {
        half: one(alloc, live, 6)?,
        handed: Some(in_a_write()),
    })
}

/// Another life in a half of 16 user frames: the process of pid 9 in slot 0, with pages of code, data and heap.
pub(crate) fn earlier(alloc: Global) -> Result<DeadHalf, AllocError> {
    let live = Live {
        slot: 0,
        pid: 9,
        code: 2,
        data: 2,
        brk: 4097,
        first: 2,
    };
    Ok(DeadHalf {
        half: one(alloc, live, 12)?,
        handed: None,
    })
}

/// So many processes, at most 16, with 24 pages each and the last pids, in a half of so many user frames, at most 384. No
/// call was under way.
pub(crate) fn many(alloc: Global, user_frames: u32, count: u32) -> Result<DeadHalf, AllocError>
    requires { user_frames ≤ 384 }
{
    let mut half = Half::filled(alloc, AreaId::A, user_frames, 0)?;
    put_blank(&mut half, 257);
    for slot in 0..count.min(16) {
        let live = Live {
            slot,
            pid: 241 + slot,
            code: 4,
            data: 8,
            brk: 0x8000,
            first: 24 * slot,
        };
        put_live(&mut half, &live);
    }
    Ok(DeadHalf { half, handed: None })
}
