//! Ranges of a process with two pages of code, one of data, one of heap and four of stack. What each must give is
//! worked out from the words of memory.

use address_space::{Efault, can_read, user_bytes};
use record_layouts::{AreaView, MemoryMap};
use std::alloc::{AllocError, Global};
use std::test::Fail;
use test_fixtures::{HIGH_2, LOW_2, MAP, OWNER_0, PROC, PROC_2, ROOT_2, SmallMemory};

const USERS: MemoryMap = MemoryMap {
    user_frames: 16,
    ..MAP
};

// The slot of the process.
const SLOT: u32 = 2;

// The pages to which the user frames belong.
const PAGES: [u32; 16] = [
    27, 26, 25, 24, 23, 22, 21, 20, 19, 18, 17, 16, 0x7_fffc, 0x7_fffd, 0x7_fffe, 0x7_ffff,
];

// The frames of the area, of the cache and of users. Pages are of code up to the first of values. Counted through all
// user frames, word `n` holds `4 * n` in its two low bytes and again in its two high ones.
fn memory_of(alloc: Global, brk: u32, first_of_values: u32) -> Result<SmallMemory, AllocError> {
    let mut memory = SmallMemory::new(alloc, MAP.area_base, 144)?;
    memory.put_record(PROC_2, 128, &[PROC, 1, 7, 0, 0, 0, 2, 1, brk]);
    memory.put(ROOT_2, &[0x6001]);
    memory.put(ROOT_2 + 511, &[0x6401]);
    for (number, page) in PAGES.into_iter().enumerate() {
        let flags = if page < first_of_values { 0x5b } else { 0xd7 };
        let frame = 129u32.wrapping_add(number as u32);
        let table = if page < 1024 { LOW_2 } else { HIGH_2 };
        memory.put(
            table + (page % 1024) as usize,
            &[frame.wrapping_mul(1024).wrapping_add(flags)],
        );
        memory.put(
            number.wrapping_add(OWNER_0),
            &[page.wrapping_add(0x30_0000)],
        );
    }
    for word in 0..16384u32 {
        memory.put(131072 + word as usize, &[word.wrapping_mul(0x4_0004)]);
    }
    Ok(memory)
}

// An address, and the bytes from there on, or how many are asked for where that is refused.
const READS: [(u32, Result<&[u8], u32>); 15] = [
    (0x0001_0005, Ok(&[0xb0])),
    // Across the end of a page, into data, and into heap.
    (0x0001_0ffe, Ok(&[0xfc, 0xbf, 0x00, 0xa0])),
    (0x0001_1fff, Ok(&[0xaf, 0x00])),
    (0x0001_2ffd, Ok(&[0x9f, 0xfc, 0x9f, 0x00])),
    // The last byte of heap, and one more.
    (0x0001_3fff, Ok(&[0x8f])),
    (0x0001_3fff, Err(2)),
    // Before code, the stack and what lies beside it.
    (0x0000_ffff, Err(2)),
    (0x7fff_bfff, Err(4)),
    (0x7fff_c000, Ok(&[0x00, 0xc0])),
    (0x7fff_ffff, Ok(&[0xff])),
    (0x7fff_fffe, Err(4)),
    // No range goes on at address 0 behind the last one, and nothing is asked for.
    (0xffff_ffff, Err(2)),
    (0x0000_0000, Err(4)),
    (0x0000_0000, Ok(&[])),
    (0xffff_ffff, Ok(&[])),
];

#[test]
fn bytes_of_a_process(rt: HostRuntime) -> Result<(), Fail> {
    let memory = memory_of(rt.alloc(), 1, 18)?;
    let view = AreaView::new(&memory, USERS);
    for (addr, want) in READS {
        let mut room = [0xee; 4];
        let count = match want {
            Ok(bytes) => bytes.len().min(4),
            Err(count) => (count % 5) as usize,
        };
        let answer = user_bytes(&view, SLOT, addr, &mut room[..count]);
        assert_eq!(rt;
            can_read(&view, SLOT, addr, count as u32),
            answer,
            "at {addr:x}"
        );
        match want {
            Ok(bytes) => {
                assert_eq!(rt; answer, Ok(()), "at {addr:x}");
                assert_eq!(rt; &room[..count], bytes, "at {addr:x}");
            }
            Err(_) => assert_eq!(rt; answer, Err(Efault), "at {addr:x}"),
        }
    }
    Ok(())
}
