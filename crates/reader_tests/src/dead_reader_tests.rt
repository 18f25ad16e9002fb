//! A small memory in which one part of a process after the other can be read.
ghost use Rattle.std.specs.Prelude.{◌≡◌, ◌+◌, ◌≤◌, length};

use dead_reader::{DeadMemory, DeadView, HandOver, RecordId, Unreadable, WordSource};
use ow_base::{AreaId, Bank, Came, Regs, put_seal};
use std::alloc::{AllocError, Global};
use std::test::Fail;

// What a kernel has left in half A, with the 64 frames of its area and no other, and 32 user frames.
#[derive(Drop)]
struct Memory {
    words: Vec<u32>,
    handed: Option<HandOver>,
}

// The first words of the parts by which the process of pid 5 in slot 3 is read: its exit record, the head, its record,
// its root, and its low table and its high one.
const EXIT: usize = 11 * 1024 + 16;

const HEAD: usize = 0;

const RECORD: usize = 1024 + 3 * 128;

const ROOT: usize = 25 * 1024;

const LOW: usize = 26 * 1024;

const HIGH: usize = 27 * 1024;

// The words that name the owners of user frames.
const OWNERS: usize = 10 * 1024;

// Puts a record of so many words, which begins with these.
fn put(words: &mut [u32], at: usize, count: usize, first: &[u32])
    requires some { 2 ≤ count }
    requires fits { length first.now ≤ count }
    requires room { at + count ≤ length words.old }
    ensures { length words.new ≡ length words.old }
{
    let record = &mut words[at..at + count];
    record[..first.len()].copy_from_slice(first);
    put_seal(record);
}

// The pages of the process: one of code and four of stack, in the first user frames.
fn put_pages(words: &mut [u32])
    requires { length words.old ≡ 65536 }
    ensures { length words.new ≡ 65536 }
{
    words[LOW + 16] = 0x2_045b;
    words[OWNERS] = 0x40_0010;
    for k in 0..4 {
        words[HIGH + 1020 + k] = 0x2_08d7 + 1024 * k as u32;
        words[OWNERS + 1 + k] = 0x47_fffc + k as u32;
    }
}

// The first so many parts of the process.
fn put_parts(words: &mut [u32], parts: u32)
    requires { length words.old ≡ 65536 }
    ensures { length words.new ≡ 65536 }
{
    if parts == 0 {
        return;
    }
    put(words, EXIT, 4, &[0x4558_4954, 1, 3]);
    if parts == 1 {
        return;
    }
    put(words, HEAD, 16, &[0x4845_4144, 1, 6, 5, 6]);
    if parts == 2 {
        return;
    }
    put(words, RECORD, 128, &[0x5052_4f43, 1, 5, 0, 0, 0, 1]);
    if parts == 3 {
        return;
    }
    words[ROOT] = 27 * 1024 + 1;
    words[ROOT + 511] = 28 * 1024 + 1;
    if parts == 4 {
        return;
    }
    put_pages(words);
}

impl Memory {
    // So many of the parts can be read.
    fn new(alloc: Global, parts: u32, handed: Option<HandOver>) -> Result<Memory, AllocError> {
        let mut words = vec![in alloc; 0u32; 65536]?;
        put_parts(&mut words, parts);
        Ok(Memory { words, handed })
    }
}

impl WordSource for Memory {
    ghost use Rattle.std.specs.Prelude.{◌+◌, ◌-◌, ◌*◌, ◌||◌, nat_lt, not, if◌then◌else◌, slice_index, Some, None};

    ghost words = { λ m frame place.
        if nat_lt frame 1 || not (nat_lt frame 65) then None else Some (slice_index m.words.items (1024 * (frame - 1) + place)) };

    fn load(&self, frame: u32, word: u32) -> Option<u32> {
        if frame < 1 || frame >= 65 {
            return None;
        }
        Some(
            self.words
                .get((1024 * (frame - 1) + word) as usize)
                .copied()
                .unwrap_or(0),
        )
    }
}

impl DeadMemory for Memory {
    ghost use Rattle.std.specs.Prelude.{None};
    ghost use Rattle.ow_base.specs.declared.machine.AreaId.TheVariants.{A};

    ghost dead = { λ m. record {
      area = A;
      user_frames = 32;
      sectors = 0;
      sector_words = λ sector word. None;
      counts = λ tty. 0;
      handover = m.handed;
    } };

    fn area(&self) -> AreaId {
        AreaId::A
    }

    fn user_frames(&self) -> u32 {
        32
    }

    fn sectors(&self) -> u32 {
        0
    }

    fn sector_word(&self, _n: u32, _word: u32) -> u32 {
        0
    }

    fn count(&self, _tty: u32) -> u32 {
        0
    }

    fn handover(&self) -> Option<HandOver> {
        self.handed
    }
}

// How many parts can be read, and the first that cannot.
const UNREADABLE: [(u32, Unreadable); 4] = [
    (
        1,
        Unreadable {
            id: RecordId::Head,
            index: 0,
        },
    ),
    (
        2,
        Unreadable {
            id: RecordId::Proc(3),
            index: 0,
        },
    ),
    (
        3,
        Unreadable {
            id: RecordId::Proc(3),
            index: 1,
        },
    ),
    (
        4,
        Unreadable {
            id: RecordId::Proc(3),
            index: 16,
        },
    ),
];

#[test]
fn the_first_that_cannot_be_read(rt: HostRuntime) -> Result<(), Fail> {
    let memory = Memory::new(rt.alloc(), 0, None)?;
    assert_eq!(rt; DeadView::new(&memory).process(3), Ok(None));
    for (parts, unreadable) in UNREADABLE {
        let memory = Memory::new(rt.alloc(), parts, None)?;
        assert_eq!(rt; DeadView::new(&memory).process(3), Err(unreadable));
    }
    Ok(())
}

// A hand-over of pid 5: its trap, where 6 was done last, how it came and the number in a7; and what is left of the process:
// its pc, and whether its call is aborted or stands.
const LEFT: [(u32, Came, u32, (u32, bool, bool)); 5] = [
    (7, Came::Call, 2, (0x1_0040, true, false)),
    (7, Came::Call, 16, (0x1_0040, false, true)),
    (6, Came::Call, 2, (0, false, false)),
    (7, Came::User, 2, (0x1_0040, false, false)),
    (7, Came::Kernel, 2, (0, false, false)),
];

#[test]
fn what_is_left(rt: HostRuntime) -> Result<(), Fail> {
    for (trap, came, number, want) in LEFT {
        let mut bank = Bank {
            pc: 0x1_0040,
            regs: Regs::new(),
        };
        bank.regs.set(17, number);
        let handed = HandOver {
            trap,
            pid: 5,
            came,
            bank,
        };
        let memory = Memory::new(rt.alloc(), 5, Some(handed))?;
        match DeadView::new(&memory).process(3) {
            Ok(Some(p)) => assert_eq!(rt; (p.rec.pc, p.aborted, p.stands), want, "{trap} {number}"),
            other => panic!(rt; "nothing is left: {other:?}"),
        }
    }
    Ok(())
}
