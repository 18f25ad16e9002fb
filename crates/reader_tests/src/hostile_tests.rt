//! The view of a dead kernel over memories that no kernel would leave. Each of its answers is compared with what the rules
//! say of the same words, read apart from the readers.

use crate::comparing::{difference_in, difference_near, first_difference};
use crate::images::{full, open, root_of, valid};
use crate::left_memory::LeftMemory;
use crate::plain_area::{GATE, MOST_PAYLOAD, SEAL};
use crate::plain_records::KINDS;
use crate::random::Random;
use dead_reader::{DeadView, HandOver};
use ow_base::{AreaId, Bank, Came, Regs};
use std::test::Fail;
use test_fixtures::{EXIT, HEAD, PROC, sealed};

// The slots that have processes in the memory that is valid.
const LIVE_SLOTS: [u32; 3] = [0, 3, 15];

// All words are the same, or all are random, in either half, of the least and of the greatest size.
#[test]
fn words_that_say_nothing(rt: HostRuntime) -> Result<(), Fail> {
    let mut random = Random::new(1);
    for (area, user_frames) in [(AreaId::A, 384), (AreaId::B, 16)] {
        for filling in [Some(u32::MAX), Some(0), None, None, None] {
            let mut memory = LeftMemory::new(rt.alloc(), area, user_frames)?;
            for number in 0..65536 {
                memory.set(number, filling.unwrap_or(random.word()));
            }
            let difference = first_difference(rt.alloc(), &memory)?;
            assert_eq!(rt; difference, None, "{filling:?}");
        }
    }
    Ok(())
}

// A memory of which each record and each process can be read, in which every user frame has its page.
#[test]
fn a_full_memory(rt: HostRuntime) -> Result<(), Fail> {
    let memory = full(rt.alloc())?;
    assert_eq!(rt; first_difference(rt.alloc(), &memory)?, None);
    let view = DeadView::new(&memory);
    for slot in 0..16 {
        assert!(rt; matches!(view.process(slot), Ok(Some(_))), "slot {slot}");
    }
    Ok(())
}

// The word counts for something while the gate is shut: it is of a record, the gate, an owner word, or of a slot's tables one
// that leads on or one of a page that a process has.
fn is_read(number: usize) -> bool {
    let place = number % 1024;
    match number / 1024 {
        0 => place <= GATE,
        10 => place < 384 || place >= 960,
        1..12 => true,
        12..16 => false,
        frame if frame % 3 == 1 => place == 0 || place == 511,
        frame if frame % 3 == 2 => (16..20).contains(&place),
        _ => place >= 1020,
    }
}

// The slot whose process reads a word, of records, owners and tables that belong to slots, or else slot 0.
fn slot_of(number: usize) -> u32 {
    let slot = match number / 1024 {
        1 | 2 => (number - 1024) / 128,
        3 => number / 32,
        10 if number >= 10616 => 15,
        16.. => (number - 16384) / 3072,
        _ => 0,
    };
    (slot % 16) as u32
}

// One word of the memory is hurt: of a record, of the intent block, of the owners or of the tables. All answers are compared
// that may read it.
#[test]
fn each_word_hurt(rt: HostRuntime) -> Result<(), Fail> {
    let mut memory = valid(rt.alloc())?;
    assert_eq!(rt; first_difference(rt.alloc(), &memory)?, None);
    let mut random = Random::new(2);
    for number in 0..65536 {
        if is_read(number) {
            let word = memory.word(number);
            memory.set(number, word ^ (1u32.rotate_left(random.below(32))));
            let slots = if slot_of(number) == 15 {
                LIVE_SLOTS
            } else {
                [0, 3, 3]
            };
            let difference = difference_near(rt.alloc(), &memory, number / 1024, &slots)?;
            assert_eq!(rt; difference, None, "word {number}");
            memory.set(number, word);
        }
    }
    Ok(())
}

// Of some records of each kind, one in so many, a field is another one, and the record is sealed again.
fn exchange_fields(memory: &mut LeftMemory, random: &mut Random, one_in: u32) {
    for kind in KINDS {
        let layout = kind.layout();
        for index in 0..256u32 {
            if index < layout.count && random.below(one_in) == 0 {
                let first = layout.place(index);
                let place = random.below(layout.words.saturating_sub(2).min(20)) as usize;
                memory.set(first + 1 + place, random.field());
                memory.seal_again(first, layout.words as usize);
            }
        }
    }
}

// Records whose seals fit and whose fields are any: few or many of them.
#[test]
fn records_with_other_fields(rt: HostRuntime) -> Result<(), Fail> {
    let mut random = Random::new(3);
    for round in 0..100u32 {
        let mut memory = valid(rt.alloc())?;
        let one_in = 1 + 40 * (round % 4);
        exchange_fields(&mut memory, &mut random, one_in);
        memory.hand_over(any_hand_over(&mut random));
        memory.write([random.below(12), 9]);
        let difference = first_difference(rt.alloc(), &memory)?;
        assert_eq!(rt; difference, None, "round {round}");
    }
    Ok(())
}

// What was handed over of pid 1, 5 or 256, or of another one, or nothing.
fn any_hand_over(random: &mut Random) -> Option<HandOver> {
    let mut regs = Regs::new();
    regs.set(17, random.below(20));
    regs.set(1, random.word());
    let came = match random.below(5) {
        0 => return None,
        1 => Came::Kernel,
        2 => Came::User,
        3 => Came::Call,
        _ => Came::Closing,
    };
    let pid = match random.below(4) {
        0 => 1,
        1 => 5,
        2 => 256,
        _ => random.below(258),
    };
    Some(HandOver {
        trap: 5 + random.below(3),
        pid,
        came,
        bank: Bank {
            pc: random.word(),
            regs,
        },
    })
}

// What is handed over of a process whose records can be read: each call that it can have made, and each way into the
// kernel.
#[test]
fn what_was_handed_over(rt: HostRuntime) -> Result<(), Fail> {
    let mut memory = valid(rt.alloc())?;
    let mut random = Random::new(4);
    for round in 0..150u32 {
        memory.hand_over(any_hand_over(&mut random));
        let difference = difference_in(rt.alloc(), &memory, &LIVE_SLOTS)?;
        assert_eq!(rt; difference, None, "round {round}");
    }
    Ok(())
}

// Words of tables: those that lead to tables of this slot and of another, to a root, the boot frame, the area, the last user
// frame, those behind it, and the last that an entry can name; with the flags of a pointer and of leaves.
fn any_entry(random: &mut Random) -> u32 {
    let frame = match random.below(12) {
        0 => 0,
        1 => 1,
        2 => 17,
        3 => 18,
        4 => 19,
        5 => 26,
        6 => 27,
        7 => 28,
        8 => 128 + random.below(12),
        9 => 512 + random.below(3),
        10 => 0x3f_ffff,
        _ => random.below(1024),
    };
    let flags = match random.below(8) {
        0 => 0,
        1 => 3,
        2 => 0xd6,
        3 | 4 => 0xd7,
        5 => 0x5b,
        _ => 1,
    };
    frame.wrapping_mul(1024).wrapping_add(flags)
}

// Sets some words of the tables of live slots, and an owner word to that of another page. Tells what they were before.
fn hurt_tables(memory: &mut LeftMemory, random: &mut Random) -> [(usize, u32); 4] {
    let mut were = [(0, 0); 4];
    for (turn, was) in were.iter_mut().enumerate() {
        let slot = LIVE_SLOTS[(random.below(3) % 3) as usize];
        let place = match random.below(6) {
            0 => 0,
            1 => 511,
            2 => 1024 + 16,
            3 => 1024 + 17,
            4 => 2048 + 1020,
            _ => 2048 + 1023,
        };
        let (place, word) = if turn == 0 {
            let claim = (1 + random.below(16) % 16) * 0x10_0000 + 16 + random.below(3) % 3;
            (10240 + random.below(12) as usize, claim)
        } else {
            (root_of(slot) + place, any_entry(random))
        };
        *was = (place, memory.word(place));
        if random.below(2) == 0 {
            memory.set(place, word);
        }
    }
    were
}

// Tables that lead to one another and to frames that are no user frames, and owner words of other pages and slots.
#[test]
fn tables_that_lead_anywhere(rt: HostRuntime) -> Result<(), Fail> {
    let mut random = Random::new(5);
    let mut memory = valid(rt.alloc())?;
    for round in 0..600u32 {
        let were = hurt_tables(&mut memory, &mut random);
        let difference = difference_in(rt.alloc(), &memory, &LIVE_SLOTS)?;
        assert_eq!(rt; difference, None, "round {round}");
        for (place, word) in were.iter().rev() {
            memory.set(*place, *word);
        }
    }
    Ok(())
}

// An exit record names a slot that another one names: the least pid counts, be it that of the process or not.
#[test]
fn exits_that_name_one_slot(rt: HostRuntime) -> Result<(), Fail> {
    let mut memory = valid(rt.alloc())?;
    for pid in 1..257u32 {
        let place = 11260 + 4 * pid as usize;
        let words = [
            memory.word(place),
            memory.word(place + 1),
            memory.word(place + 2),
            memory.word(place + 3),
        ];
        for slot in [0, 3, 7, 15] {
            memory.put_record(place, 4, &[EXIT, 1, slot]);
            let difference = difference_in(rt.alloc(), &memory, &[slot, 3])?;
            assert_eq!(rt; difference, None, "pid {pid} in slot {slot}");
        }
        memory.put(place, &words);
    }
    Ok(())
}

// Lays words over those from a place on.
fn lay(words: &mut [u32], place: usize, part: &[u32]) {
    for (to, from) in words.iter_mut().skip(place).zip(part) {
        *to = *from;
    }
}

// The payload of an intent that ends the process of pid 5: the head, the record of slot 3, and its exit record.
fn ending() -> [u32; 157] {
    let mut payload = [0; 157];
    let process = [PROC, 3, 5, 1, 0, 0, 0, 0, 0, 0, 0, 0, 0x109];
    lay(&mut payload, 0, &[0, 0, 16]);
    lay(&mut payload, 3, &sealed::<16>(&[HEAD, 1, 7, 5, 257, 63]));
    lay(&mut payload, 19, &[1, 384, 128]);
    lay(&mut payload, 22, &sealed::<128>(&process));
    lay(&mut payload, 150, &[11, 16, 4]);
    lay(&mut payload, 153, &sealed::<4>(&[EXIT, 2, 0x109]));
    payload
}

// A commit that broke behind the store that opened its intent, and one word of the block hurt: the intent counts whole or
// not at all.
#[test]
fn an_open_intent_hurt(rt: HostRuntime) -> Result<(), Fail> {
    let payload = ending();
    let mut memory = valid(rt.alloc())?;
    open(&mut memory, 157, &payload);
    let difference = first_difference(rt.alloc(), &memory)?;
    assert_eq!(rt; difference, None);
    assert_eq!(rt; DeadView::new(&memory).process(3), Ok(None));
    for number in GATE..SEAL + 1 {
        if number < GATE + 160 || number == SEAL {
            let word = memory.word(number);
            memory.set(number, word ^ 4);
            let difference = difference_in(rt.alloc(), &memory, &LIVE_SLOTS)?;
            assert_eq!(rt; difference, None, "word {number}");
            memory.set(number, word);
        }
    }
    Ok(())
}

// The payload of an intent: one range of records of files, ranges of one word of exit records, or anything.
fn any_payload(random: &mut Random, count: u32) -> [u32; 1006] {
    let mut payload = [0; 1006];
    let way = random.below(3);
    for (place, word) in payload.iter_mut().enumerate() {
        *word = match (way, place) {
            (0, 0) => 4,
            (0, 1) => 0,
            (0, 2) => count.saturating_sub(3),
            (1, _) if place % 4 == 0 => 11,
            (1, _) if place % 4 == 1 => random.below(1024),
            (1, _) if place % 4 == 2 => 1,
            _ => random.field(),
        };
    }
    payload
}

// Intents of each length, with seals that fit, and gates that are too long.
#[test]
fn intents_of_every_length(rt: HostRuntime) -> Result<(), Fail> {
    let mut random = Random::new(6);
    let mut memory = valid(rt.alloc())?;
    for gate in 1..1012u32 {
        let gate = if gate < 1010 { gate } else { gate << 20 };
        let payload = any_payload(&mut random, gate);
        let count = gate.min(MOST_PAYLOAD) as usize;
        open(&mut memory, gate, &payload[..count]);
        let difference = if gate % 50 == 0 {
            first_difference(rt.alloc(), &memory)?
        } else {
            difference_in(rt.alloc(), &memory, &[3, gate % 16])?
        };
        assert_eq!(rt; difference, None, "{gate}");
    }
    Ok(())
}
