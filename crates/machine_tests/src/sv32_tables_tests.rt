//! Walks through a small memory. What each must answer is worked out from the manual.

use std::test::Fail;
use sv32_tables::{Access, PageCause, Phys, Rights, leaf, pointer, walk};
use test_fixtures::SmallMemory;

const MODE: u32 = 0x8000_0000;

const ACCESSES: [Access; 3] = [Access::Fetch, Access::Load, Access::Store];

// V, U and A, and what an access wants beside them: X, R, or R, W and D.
fn wanted(access: Access) -> u32 {
    match access {
        Access::Fetch => 0x59,
        Access::Load => 0x53,
        Access::Store => 0xd7,
    }
}

// A leaf gives an access where all is set that this wants. W (4) without R (2) is reserved.
fn gives(flags: u32, access: Access) -> bool {
    flags & wanted(access) == wanted(access) && flags & 6 != 4
}

fn place(frame: u32, offset: u32) -> Result<Phys, PageCause> {
    Ok(Phys { frame, offset })
}

fn if_given(given: bool, frame: u32, offset: u32) -> Result<Phys, PageCause> {
    if given {
        place(frame, offset)
    } else {
        Err(PageCause::Page)
    }
}

// The root is the first frame of memory, and the second a table of the last level.
const LAST: usize = 1024;

// Each way to set the ten lowest bits of a leaf of the last level, of one of the first, and of an entry of the first that
// names no aligned megapage: this one leads on where V is set and R, W and X are clear, whatever the others are.
#[test]
fn flags_of_entries(rt: HostRuntime) -> Result<(), Fail> {
    let mut memory = SmallMemory::new(rt.alloc(), 1024, 3)?;
    memory.put(1, &[pointer(1025)]);
    memory.put(LAST + 4, &[leaf(1026, Rights::Values)]);
    for flags in 0..1024 {
        memory.put(LAST + 2, &[1026 * 1024 + flags]);
        memory.put(3, &[1024 * 1024 + flags]);
        memory.put(4, &[1025 * 1024 + flags]);
        let through = walk(&memory, MODE + 1024, 0x0100_4ffe, Access::Load);
        assert_eq!(rt;
            through,
            if_given(flags & 15 == 1, 1026, 0xffe),
            "{flags:x}"
        );
        for access in ACCESSES {
            let given = gives(flags, access);
            let last = walk(&memory, MODE + 1024, 0x0040_2345, access);
            assert_eq!(rt; last, if_given(given, 1026, 0x345), "{flags:x} {access:?}");
            let first = walk(&memory, MODE + 1024, 0x00c0_2345, access);
            assert_eq!(rt; first, if_given(given, 1026, 0x345), "{flags:x} {access:?}");
        }
    }
    Ok(())
}

// Tables and pages that are not there, tables that name themselves or one another, and their own frames as pages.
#[test]
fn places_of_tables(rt: HostRuntime) -> Result<(), Fail> {
    let mut memory = SmallMemory::new(rt.alloc(), 1024, 3)?;
    memory.put(0, &[pointer(1024)]);
    memory.put(1, &[pointer(1025)]);
    memory.put(2, &[leaf(1025, Rights::Values)]);
    memory.put(3, &[pointer(1027)]);
    memory.put(4, &[pointer(0x3f_ffff)]);
    memory.put(5, &[leaf(1024, Rights::Values)]);
    memory.put(6, &[leaf(0x3f_fc00, Rights::Values)]);
    memory.put(1023, &[pointer(1025)]);
    memory.put(LAST + 0, &[pointer(1025)]);
    memory.put(LAST + 1, &[leaf(1024, Rights::Values)]);
    memory.put(LAST + 2, &[leaf(1025, Rights::Values)]);
    memory.put(LAST + 3, &[leaf(1023, Rights::Values)]);
    memory.put(LAST + 4, &[leaf(0x3f_ffff, Rights::Values)]);
    memory.put(LAST + 1023, &[leaf(1026, Rights::Values)]);
    let table = [
        // The root as its own table: a pointer is no leaf there, and a leaf is one.
        (0x0000_0004, Err(PageCause::Page)),
        (0x0000_2004, place(1025, 4)),
        (0x0000_7004, Err(PageCause::Page)),
        // A table that names itself, and the tables as pages.
        (0x0040_0000, Err(PageCause::Page)),
        (0x0040_1ffc, place(1024, 0xffc)),
        (0x0040_2000, place(1025, 0)),
        (0x007f_ffff, place(1026, 0xfff)),
        (0xffff_ffff, place(1026, 0xfff)),
        // Pages in frames that are not there, before and behind memory.
        (0x0040_3000, Err(PageCause::Access)),
        (0x0040_4000, Err(PageCause::Access)),
        // A megapage that is not aligned, and one whose fourth frame is not there.
        (0x0080_0000, Err(PageCause::Page)),
        (0x0140_2008, place(1026, 8)),
        (0x0140_3008, Err(PageCause::Access)),
        (0x01bf_f000, Err(PageCause::Access)),
        // Tables that are not there.
        (0x00c0_0000, Err(PageCause::Access)),
        (0x0100_0000, Err(PageCause::Access)),
        // Nothing is mapped.
        (0x0200_0000, Err(PageCause::Page)),
        (0x0040_5000, Err(PageCause::Page)),
    ];
    for (address, answer) in table {
        // The bits of ASID count for nothing.
        for asid in [0, 0x7fc0_0000] {
            let found = walk(&memory, MODE + asid + 1024, address, Access::Store);
            assert_eq!(rt; found, answer, "at {address:x}");
        }
    }
    for root in [0, 1023, 1027, 0x3f_ffff] {
        let found = walk(&memory, MODE + root, 0x0040_2000, Access::Load);
        assert_eq!(rt; found, Err(PageCause::Access), "root {root:x}");
    }
    Ok(())
}
