//! A memory that a kernel with four processes, files and two terminals has left, each record of which can be read.
ghost use Rattle.std.specs.Prelude.{◌^◌, ◌<◌};

use crate::left_memory::LeftMemory;
use crate::plain_area::{GATE, PAYLOAD, SEAL, intent_seal};
use crate::plain_records::{KINDS, Kind};
use ow_base::AreaId;
use std::alloc::{AllocError, Global};

/// A process that goes on: its slot, its pid, its state and the number of its call, its pages of code and of data, its
/// break, its descriptors, and the number of its first user frame.
#[derive(Clone, Copy)]
struct Live {
    slot: u32,
    pid: u32,
    state: u32,
    call: u32,
    code: u32,
    data: u32,
    brk: u32,
    descriptors: [u32; 4],
    first: u32,
}

const LIVES: [Live; 3] = [
    Live {
        slot: 0,
        pid: 1,
        state: 1,
        call: 0,
        code: 1,
        data: 1,
        brk: 4097,
        descriptors: [1, 1, 2, 3],
        first: 0,
    },
    Live {
        slot: 3,
        pid: 5,
        state: 2,
        call: 2,
        code: 2,
        data: 0,
        brk: 0,
        descriptors: [32, 0, 3, 0],
        first: 8,
    },
    Live {
        slot: 15,
        pid: 256,
        state: 1,
        call: 0,
        code: 1,
        data: 0,
        brk: 0,
        descriptors: [0, 0, 0, 2],
        first: 376,
    },
];

// Puts a record of a kind with its fields.
fn put(memory: &mut LeftMemory, kind: Kind, index: u32, fields: &[u32]) {
    let layout = kind.layout();
    let mut front = [0; 128];
    front[0] = layout.kind;
    for (to, from) in front.iter_mut().skip(1).zip(fields) {
        *to = *from;
    }
    memory.put_record(layout.place(index), layout.words as usize, &front);
}

// Puts records of all kinds that say nothing.
fn put_blank(memory: &mut LeftMemory) {
    for kind in KINDS {
        for index in 0..256u32 {
            if index < kind.layout().count {
                put(memory, kind, index, &[]);
            }
        }
    }
    put(memory, Kind::Head, 0, &[1, 6, 5, 257, 63]);
    for tty in 0..2 {
        put(memory, Kind::Term, tty, &[tty, 10, 65, 3, 4, 5, 6, 2]);
    }
    for place in 0..48 {
        put(memory, Kind::Row, place, &[place, 0x6463_6261]);
    }
}

// Descriptions on both terminals and on two files, whose pages the cache has.
fn put_files(memory: &mut LeftMemory) {
    put(memory, Kind::Desc, 0, &[2, 0, 3]);
    put(memory, Kind::Desc, 1, &[1, 0, 3, 100]);
    put(memory, Kind::Desc, 2, &[1, 31, 1]);
    put(memory, Kind::Desc, 31, &[2, 1, 2]);
    for (number, file) in [(0, 0x0061_7a61), (31, 0x7e62)] {
        put(
            memory,
            Kind::File,
            number,
            &[1, 2, file % 0x1_0000, 0, 0, 0, 0, 0, 5000, 2, 1, 7],
        );
    }
    put(memory, Kind::Cache, 0, &[2, 0, 1]);
    put(memory, Kind::Cache, 5, &[1, 31, 0]);
    put(memory, Kind::Cache, 63, &[2, 31, 1]);
    memory.set(11200, 0x10_0001);
    memory.set(11205, 0x200_0000);
    memory.set(11263, 0x200_0001);
}

/// Where the root of a slot begins.
pub(crate) fn root_of(slot: u32) -> usize
    ensures { result < 2 ^ 48 }
{
    16384 + 3072 * slot as usize
}

// The entry for a frame with these flags.
fn entry(frame: u32, flags: u32) -> u32 {
    frame.wrapping_mul(1024).wrapping_add(flags)
}

// Maps a page of a slot to a user frame, with these flags.
fn map_page(memory: &mut LeftMemory, live: &Live, page: u32, number: u32, flags: u32) {
    let table = if page < 1024 { 1024 } else { 2048 };
    let place = root_of(live.slot) + table + (page % 1024) as usize;
    memory.set(place, entry(number.wrapping_add(FIRST_POOL), flags));
    let claim = live
        .slot
        .wrapping_add(1)
        .wrapping_mul(0x10_0000)
        .wrapping_add(page);
    memory.set(10240 + number as usize, claim);
}

// Puts the record, the signals, the tables and the owners of a process that goes on.
fn put_live(memory: &mut LeftMemory, live: &Live) {
    let mut fields = [0; 116];
    fields[..3].copy_from_slice(&[live.state, live.pid, live.pid / 200]);
    fields[3] = live.call;
    fields[4] = live.call.wrapping_mul(8);
    fields[5..8].copy_from_slice(&[live.code, live.data, live.brk]);
    fields[12..16].copy_from_slice(&live.descriptors);
    for place in 20..116 {
        fields[place] = place as u32;
    }
    put(memory, Kind::Proc, live.slot, &fields);
    put(memory, Kind::Sig, live.slot, &[live.pid, 0x210, 0x1_0040]);
    put(
        memory,
        Kind::Exit,
        live.pid.wrapping_sub(1),
        &[1, live.slot],
    );
    put_tables(memory, live);
}

fn put_tables(memory: &mut LeftMemory, live: &Live) {
    let root = root_of(live.slot);
    let frame = live.slot.wrapping_mul(3).wrapping_add(FIRST_TABLE);
    memory.set(root, entry(frame.wrapping_add(1), 1));
    memory.set(root + 511, entry(frame.wrapping_add(2), 1));
    let values = live.code.wrapping_add(16);
    let heap = live.brk.div_ceil(4096);
    let end = values.wrapping_add(live.data).wrapping_add(heap);
    let mut number = live.first;
    for page in 16..end {
        let flags = if page < values { 0x5b } else { 0xd7 };
        map_page(memory, live, page, number, flags);
        number = number.wrapping_add(1);
    }
    for page in 0x7_fffc..0x8_0000 {
        map_page(memory, live, page, number, 0xd7);
        number = number.wrapping_add(1);
    }
}

// The first root and the first user frame of a kernel in half A.
const FIRST_TABLE: u32 = 17;

const FIRST_POOL: u32 = 129;

/// What the kernel has left in half A, with 384 user frames. One process has ended. Of terminal 0 a byte is not out.
pub(crate) fn valid(alloc: Global) -> Result<LeftMemory, AllocError> {
    let mut memory = LeftMemory::new(alloc, AreaId::A, 384)?;
    put_blank(&mut memory);
    put_files(&mut memory);
    put(
        &mut memory,
        Kind::Proc,
        7,
        &[3, 7, 1, 0, 0, 0, 0, 0, 0, 0, 0, 0x109],
    );
    put(&mut memory, Kind::Exit, 6, &[2, 0x109]);
    for live in &LIVES {
        put_live(&mut memory, live);
    }
    memory.write([9, 10]);
    Ok(memory)
}

/// What a kernel has left in half A whose 16 processes have all 384 user frames, 24 each. They have the last pids.
pub(crate) fn full(alloc: Global) -> Result<LeftMemory, AllocError> {
    let mut memory = LeftMemory::new(alloc, AreaId::A, 384)?;
    put_blank(&mut memory);
    for slot in 0..16u32 {
        let live = Live {
            slot,
            pid: 241 + slot,
            state: 1,
            call: 0,
            code: 4,
            data: 8,
            brk: 0x8000,
            descriptors: [0; 4],
            first: 24 * slot,
        };
        put_live(&mut memory, &live);
    }
    Ok(memory)
}

/// Opens an intent with this gate and this payload, and the seal that fits.
pub(crate) fn open(memory: &mut LeftMemory, gate: u32, payload: &[u32]) {
    memory.put(PAYLOAD, payload);
    memory.set(GATE, gate);
    memory.set(SEAL, intent_seal(gate, payload));
}
