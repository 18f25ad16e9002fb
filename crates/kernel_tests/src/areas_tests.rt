//! Areas with an intent, and what is read of them. The seals of intents were worked out apart from this program.

use ow_base::put_seal;
use record_layouts::Gate::{self, Broken, Closed, Open};
use record_layouts::{AreaView, ExitRec, HeadRec, MemoryMap, RecordView, gate, overlaid};
use std::alloc::{AllocError, Global};
use std::test::Fail;
use test_fixtures::{AFTER, AREA_FRAMES, BEFORE, EXIT_5, FILE, SmallMemory, intent_of_5};

const MAP: MemoryMap = MemoryMap {
    area_base: 129,
    cache_base: 257,
    pool_base: 321,
    user_frames: 4,
    sectors: 8,
};

// Word n of the area is n, but for the gate, the payload and the seal.
fn area_with(
    alloc: Global,
    gate: u32,
    payload: &[u32],
    seal: u32,
) -> Result<SmallMemory, AllocError> {
    let mut memory = SmallMemory::new(alloc, MAP.area_base, AREA_FRAMES)?;
    for number in 0..65536u32 {
        memory.put(number as usize, &[number]);
    }
    memory.put(17, payload);
    memory.put(16, &[gate]);
    memory.put(1023, &[seal]);
    Ok(memory)
}

// An intent block: its gate, its payload and its seal; what it says, and a word that is read, by number and value.
const BLOCKS: [(u32, &[u32], u32, Gate, u32, u32); 15] = [
    // No intent; two words of the head, words behind the head, and the gate itself.
    (0, &[1, 0, 1, 10], 0x8ad2_1c82, Closed, 1024, 1024),
    (5, &[0, 2, 2, 10, 11], 0x5852_9c5a, Open, 3, 11),
    (5, &[0, 15, 2, 10, 11], 0x5854_1c5a, Broken, 15, 15),
    (4, &[0, 16, 1, 10], 0x8ad2_dc82, Broken, 16, 4),
    // The last word of the records, one more, and words across the end of a frame.
    (4, &[9, 1023, 1, 10], 0x8ad9_e082, Open, 10239, 10),
    (5, &[9, 1023, 2, 10, 11], 0x593c_1c5a, Broken, 10239, 10239),
    (5, &[4, 1023, 2, 10, 11], 0x59ec_1c5a, Open, 5120, 11),
    // The last exit record, and the frame behind it.
    (4, &[11, 1023, 1, 10], 0x8ad8_e082, Open, 12287, 10),
    (4, &[12, 0, 1, 10], 0x8ad4_9c82, Broken, 12288, 12288),
    // A frame that would wrap, a word that its frame does not have, and far fewer words than told.
    (4, &[0x40_0000, 0, 1, 10], 0x8ad2_9ca2, Broken, 0, 0),
    (4, &[1, 1024, 1, 10], 0x8ac2_1c82, Broken, 2048, 2048),
    (4, &[1, 0, u32::MAX, 10], 0x752d_e35d, Broken, 1024, 1024),
    // A bad range behind a good one, a later range on top, and a wrong seal.
    (
        8,
        &[1, 0, 1, 10, 10, 0, 1, 11],
        0xc82d_a10a,
        Broken,
        1024,
        1024,
    ),
    (
        9,
        &[2, 1, 1, 11, 2, 0, 2, 10, 10],
        0x0734_0e7b,
        Open,
        2049,
        10,
    ),
    (4, &[1, 0, 1, 10], 0x8ad2_1c83, Broken, 1024, 1024),
];

#[test]
fn intents_of_every_kind(rt: HostRuntime) -> Result<(), Fail> {
    for (told, payload, seal, want, number, value) in BLOCKS {
        let memory = area_with(rt.alloc(), told, payload, seal)?;
        assert_eq!(rt; gate(&memory, 129), want, "{payload:?}");
        let read = overlaid(&memory, 129, number / 1024 % 64, number % 1024);
        assert_eq!(rt; read, value, "{payload:?}");
    }
    // A payload as long as it may be, and one word more than that.
    let mut payload = [0; 1006];
    payload[0] = 2;
    payload[1] = 5;
    payload[2] = 1003;
    for place in 3..1006 {
        payload[place] = 0x100 + place as u32 - 3;
    }
    for (told, seal, want, last) in [
        (1006, 0x2d64_1c8c, Open, 0x100 + 1002),
        (1007, 0xac83_9985, Broken, 2048 + 1007),
    ] {
        let memory = area_with(rt.alloc(), told, &payload, seal)?;
        assert_eq!(rt; gate(&memory, 129), want);
        assert_eq!(rt; overlaid(&memory, 129, 2, 1007), last);
    }
    Ok(())
}

const HEAD: HeadRec = HeadRec {
    layout: 1,
    served: 5,
    last: 1,
    next: 6,
    hand: 0,
};

// What is read of the head, of pid 5 and of the last file, by the view of any area.
fn read_of<V: RecordView>(view: &V) -> (Option<HeadRec>, Option<ExitRec>, bool) {
    (view.head(), view.exit(5), view.file(31).is_some())
}

// A record that an intent changes, the head, which a broken one takes away, and a file whose data sector is the last of
// the disk, or the first that the disk does not have.
#[test]
fn records_of_an_area(rt: HostRuntime) -> Result<(), Fail> {
    let (payload, seal) = intent_of_5();
    let mut file = [0; 96];
    file[..4].copy_from_slice(&[FILE, 1, 1, 97]);
    file[10] = 1;
    for (told, seal, head, exit, sector) in [
        (0, seal, Some(HEAD), Some(BEFORE), 7),
        (7, seal, Some(HEAD), Some(AFTER), 8),
        (7, seal ^ 1, None, Some(BEFORE), 7),
    ] {
        file[11] = sector;
        put_seal(&mut file);
        let mut memory = area_with(rt.alloc(), told, &payload, seal)?;
        memory.put(0, &HEAD.to_words());
        memory.put(EXIT_5, &BEFORE.to_words());
        memory.put(6 * 1024 + 928, &file);
        let view = AreaView::new(&memory, MAP);
        assert_eq!(rt; read_of(&view), (head, exit, sector < 8));
        let owners = (view.owner(3), view.owner(4), view.cache_owner(63));
        assert_eq!(rt; owners, (10243, 0, 11263));
        assert_eq!(rt; view.table_word(15, 2, 1023), 65535);
    }
    Ok(())
}
