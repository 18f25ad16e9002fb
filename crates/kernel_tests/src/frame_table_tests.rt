//! The regions of processes, and the frame of a page whose records are as they should be but for one word.

use frame_table::{claim_word, page_frame};
use record_layouts::{AreaView, MemoryMap};
use std::alloc::{AllocError, Global};
use std::test::Fail;
use test_fixtures::{AREA_FRAMES, HIGH_2, LOW_2, MAP, OWNER_0, PROC, PROC_2, ROOT_2, SmallMemory};

const USERS: MemoryMap = MemoryMap {
    user_frames: 32,
    ..MAP
};

// Slot 2 has a process of two pages of code, one of data, two of heap and four of stack, and of its tables one word
// of the root and one entry are not 0; user frame 5 has an owner.
fn tables(alloc: Global, [page, root, entry, owner]: [u32; 4]) -> Result<SmallMemory, AllocError> {
    let mut memory = SmallMemory::new(alloc, MAP.area_base, AREA_FRAMES)?;
    memory.put_record(PROC_2, 128, &[PROC, 1, 1, 0, 0, 0, 2, 1, 4097]);
    memory.put(OWNER_0 + 5, &[owner]);
    memory.put(ROOT_2 + (page / 1024 % 1024) as usize, &[root]);
    let table = if page < 1024 { LOW_2 } else { HIGH_2 };
    memory.put(table + (page % 1024) as usize, &[entry]);
    Ok(memory)
}

// The pointers to the low table of slot 2 and to its high one, in frames 24 and 25 of memory.
const LOW: u32 = 0x6001;

const HIGH: u32 = 0x6401;

// User frame 5 as a frame of memory.
const FOUND: Option<u32> = Some(134);

// What is held for a page: its number, the word of the root, the entry and the owner's word; and the frame that it gives.
const CASES: [([u32; 4], Option<u32>); 20] = [
    ([16, LOW, 0x2_185b, 0x30_0010], FOUND),
    ([18, LOW, 0x2_18d7, 0x30_0012], FOUND),
    ([0x7_ffff, HIGH, 0x2_18d7, 0x37_ffff], FOUND),
    // Pages that the regions do not hold.
    ([15, LOW, 0x2_185b, 0x30_000f], None),
    ([21, LOW, 0x2_18d7, 0x30_0015], None),
    ([0x8_0000, HIGH, 0x2_18d7, 0x38_0000], None),
    // The owner is none, the slot behind, or the page behind.
    ([16, LOW, 0x2_185b, 0], None),
    ([16, LOW, 0x2_185b, 0x40_0010], None),
    ([16, LOW, 0x2_185b, 0x30_0011], None),
    // The entry is not exactly the leaf of the page's rights.
    ([16, LOW, 0x2_18d7, 0x30_0010], None),
    ([18, LOW, 0x2_185b, 0x30_0012], None),
    ([18, LOW, 0x2_1857, 0x30_0012], None),
    ([16, LOW, 0x2_185a, 0x30_0010], None),
    ([16, LOW, 0x2_195b, 0x30_0010], None),
    // The frame is one below the user frames, and the last that an entry can name.
    ([16, LOW, 0x2_005b, 0x30_0010], None),
    ([16, LOW, 0xffff_fc5b, 0x30_0010], None),
    // The root does not lead to the table.
    ([16, HIGH, 0x2_185b, 0x30_0010], None),
    ([16, 0x6000, 0x2_185b, 0x30_0010], None),
    ([0x7_fffc, 0x6403, 0x2_18d7, 0x37_fffc], None),
    ([0x7_fffc, LOW, 0x2_18d7, 0x37_fffc], None),
];

#[test]
fn frames_of_pages(rt: HostRuntime) -> Result<(), Fail> {
    for (words, frame) in CASES {
        let memory = tables(rt.alloc(), words)?;
        let view = AreaView::new(&memory, USERS);
        let page = words[0] % 0x10_0000;
        assert_eq!(rt; page_frame(&view, 2, page), frame, "{words:?}");
        // Another slot has no such page.
        assert_eq!(rt; page_frame(&view, 3, page), None);
    }
    assert_eq!(rt; claim_word(15, 0xf_ffff), 0x10f_ffff);
    Ok(())
}
