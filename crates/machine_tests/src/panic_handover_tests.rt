//! Tests of hand-overs.

use ow_base::{Bank, Came, Regs, put_seal};
use panic_handover::HandOver;

// The words of a hand-over: in trap 7 process 3 had made a call.
fn called_words() -> [u32; 40] {
    [
        0x4841_4e44,
        7,
        3,
        2,
        0x0001_0008,
        0,
        0x7fff_fff0,
        0,
        0,
        0,
        0,
        0,
        0,
        0,
        1,
        0x0001_1000,
        0,
        0,
        0,
        0,
        0,
        2,
        0,
        0,
        0,
        0,
        0,
        0,
        0,
        0,
        0,
        0,
        0,
        0,
        0,
        u32::MAX,
        0,
        0,
        0,
        0x1961_7396,
    ]
}

// The same hand-over as a value.
fn called() -> HandOver {
    let mut regs = Regs::new();
    regs.set(2, 0x7fff_fff0);
    regs.set(10, 1);
    regs.set(11, 0x0001_1000);
    regs.set(17, 2);
    regs.set(31, u32::MAX);
    HandOver {
        trap: 7,
        pid: 3,
        came: Came::Call,
        bank: Bank {
            pc: 0x0001_0008,
            regs,
        },
    }
}

// The words with one of them changed, and sealed again where it is not the seal.
fn changed(word: usize, value: u32) -> [u32; 40] {
    let mut words = called_words();
    if let Some(place) = words.get_mut(word) {
        *place = value;
    }
    if word != 39 {
        put_seal(&mut words);
    }
    words
}

#[test]
fn words_of_a_hand_over(rt: HostRuntime) {
    assert_eq!(rt; HandOver::from_words(&called_words()), Some(called()));
    if let Some(hand_over) = HandOver::from_words(&called_words()) {
        assert_eq!(rt; &hand_over.to_words()[..], &called_words()[..]);
    }
    let table = [
        // another kind
        (0, 0x4841_4e45, false),
        (1, u32::MAX, true),
        (2, 256, true),
        (2, 257, false),
        // from the kernel, but with registers
        (3, 0, false),
        (3, 1, true),
        (3, 3, true),
        (3, 4, false),
        (36, 1, false),
        (38, 1, false),
        (39, 0x1961_7397, false),
    ];
    for (word, value, is_read) in table {
        assert_eq!(rt;
            HandOver::from_words(&changed(word, value)).is_some(),
            is_read,
            "word {word} as {value:x}"
        );
    }
}
