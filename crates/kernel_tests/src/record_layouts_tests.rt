//! Records of every kind by words that were spelled out and sealed apart from this program, and words that are none.

use ow_base::{Bank, Regs, put_seal};
use record_layouts::{
    AnyRec, CacheRec, DescRec, ExitRec, FileRec, HeadRec, ProcRec, RowRec, SigRec, TermRec,
};

// What words spell: a record of each kind, and others of some kinds in other states.
#[derive(Clone, Copy, Debug, PartialEq, Eq)]
enum Like {
    Head,
    Caller,
    Outside,
    Ended,
    Free,
    Signals,
    Description,
    OnTty,
    Closed,
    File,
    NoFile,
    Entry,
    Terminal,
    Row,
    Exit,
}

use Like::{
    Caller, Closed, Description, Ended, Entry, Exit, File, Free, Head, NoFile, OnTty, Outside, Row,
    Signals, Terminal,
};

// As many words as the longest record has.
type Words = [u32; 128];

// How many words a record has, the first one, those behind it, and the seal.
const SPELLED: [(Like, usize, u32, &[u32], u32); 15] = [
    (
        Head,
        16,
        test_fixtures::HEAD,
        &[1, 7, 2, 3, 63],
        0x605b_b110,
    ),
    (
        Caller,
        128,
        test_fixtures::PROC,
        &[
            2, 3, 1, 2, 16, 1, 2, 4096, 0x1_0040, 5, 3, 0, 1, 1, 1, 0, 0, 0, 0, 32,
        ],
        0x64b5_4925,
    ),
    (Outside, 128, test_fixtures::PROC, &[1, 1, 0, 0, 0, 1], 0),
    (Ended, 128, test_fixtures::PROC, &[3, 1], 0),
    (Free, 128, test_fixtures::PROC, &[], 0xd0d4_1493),
    (
        Signals,
        32,
        test_fixtures::SIG,
        &[
            4, 0xfffe, 4096, 0, 0, 0, 0, 0, 0, 0, 0, 0, 0, 0, 0, 0, 4294967292,
        ],
        0x24d4_cda8,
    ),
    (
        Description,
        16,
        test_fixtures::DESC,
        &[1, 31, 3, 4096],
        0x6591_5390,
    ),
    (OnTty, 16, test_fixtures::DESC, &[2, 1, 3], 0),
    (Closed, 16, test_fixtures::DESC, &[], 0),
    (
        File,
        96,
        test_fixtures::FILE,
        &[1, 3, 0x7a_7e61, 0, 0, 0, 0, 0, 5000, 2, 7, 2047],
        0x504b_82ef,
    ),
    (NoFile, 96, test_fixtures::FILE, &[], 0),
    (Entry, 8, test_fixtures::CACHE, &[2, 31, 63], 0x153f_d0d2),
    (
        Terminal,
        16,
        test_fixtures::TERM,
        &[1, 1000, 255, 7, 23, 22, 79, 990],
        0x6eca_67e6,
    ),
    (Row, 24, test_fixtures::ROW, &[47], 0xecb6_380a),
    (Exit, 4, test_fixtures::EXIT, &[2, 0x30f], 0x6125_525a),
];

// The words, without the seal. Those of a caller's banks say where they stand, and a row has text from "abcd" to the
// bytes 126 and 255.
fn words_of(like: Like, kind: u32, rest: &[u32]) -> Words {
    let mut words = [0; 128];
    match like {
        Row => {
            words[2..22].fill(0x2020_2020);
            words[2] = 0x6463_6261;
            words[21] = 0xff7e_2020;
        }
        Caller => {
            for place in 21..117 {
                words[place] = place as u32;
            }
        }
        _ => {}
    }
    words[0] = kind;
    for (to, from) in words.iter_mut().skip(1).zip(rest) {
        *to = *from;
    }
    words
}

// A bank whose words say where they stand.
fn bank_at(place: u32) -> Bank {
    let mut words = [0; 31];
    for (k, word) in words.iter_mut().enumerate() {
        *word = place.wrapping_add(k as u32);
    }
    Bank {
        pc: place.wrapping_add(31),
        regs: Regs::from(words),
    }
}

// A process in a write, which has written 16 bytes so far.
fn caller() -> ProcRec {
    let bank = bank_at(21);
    ProcRec {
        state: 2,
        pid: 3,
        parent: 1,
        call: 2,
        done: 16,
        code_pages: 1,
        data_pages: 2,
        brk: 4096,
        procedure: 0x0001_0040,
        mask: 5,
        flags: 3,
        status: 0,
        descs: [1, 1, 1, 0, 0, 0, 0, 32],
        regs: bank.regs,
        pc: bank.pc,
        handler_save: bank_at(53),
        crash_save: bank_at(85),
    }
}

// A file "a~z" of 5,000 bytes in the data sectors 7 and 2,047.
fn file() -> FileRec {
    let mut name = [0; 24];
    name[..3].copy_from_slice(b"a~z");
    let mut sectors = [0; 64];
    sectors[..2].copy_from_slice(&[7, 2047]);
    FileRec {
        state: 1,
        name_len: 3,
        name,
        size: 5000,
        kept: 2,
        sectors,
    }
}

fn row() -> RowRec {
    let mut text = [b' '; 80];
    text[..4].copy_from_slice(b"abcd");
    text[78] = 126;
    text[79] = 255;
    RowRec { place: 47, text }
}

// The record that is spelled so, where its seal is told.
fn value(like: Like) -> AnyRec {
    match like {
        Caller | Outside | Ended | Free => AnyRec::Proc(caller()),
        File | NoFile => AnyRec::File(file()),
        Row => AnyRec::Row(row()),
        Head => AnyRec::Head(HeadRec {
            layout: 1,
            served: 7,
            last: 2,
            next: 3,
            hand: 63,
        }),
        Signals => AnyRec::Sig(SigRec {
            pid: 4,
            pending: 0xfffe,
            handlers: [4096, 0, 0, 0, 0, 0, 0, 0, 0, 0, 0, 0, 0, 0, 0xffff_fffc],
        }),
        Description | OnTty | Closed => AnyRec::Desc(DescRec {
            object: 1,
            index: 31,
            mode: 3,
            offset: 4096,
        }),
        Entry => AnyRec::Cache(CacheRec {
            state: 2,
            file: 31,
            page: 63,
        }),
        Terminal => AnyRec::Term(TermRec {
            tty: 1,
            written: 1000,
            last: 255,
            consumed: 7,
            top: 23,
            row: 22,
            col: 79,
            base: 990,
        }),
        Exit => AnyRec::Exit(ExitRec {
            state: 2,
            value: 0x30f,
        }),
    }
}

// As many of the words, and 0 behind them.
fn part<const N: usize>(words: &[u32]) -> [u32; N] {
    let mut part = [0; N];
    for (to, from) in part.iter_mut().zip(words) {
        *to = *from;
    }
    part
}

// The record that the words begin with, and the words that it is spelled with.
fn read(like: Like, words: &Words) -> Option<(AnyRec, Words)> {
    macro_rules! read_as {
        ($kind:ident, $rec:ident) => {{
            let rec = $rec::from_words(&part(words))?;
            Some((AnyRec::$kind(rec), part(&rec.to_words())))
        }};
    }
    match like {
        Head => read_as!(Head, HeadRec),
        Caller | Outside | Ended | Free => read_as!(Proc, ProcRec),
        Signals => read_as!(Sig, SigRec),
        Description | OnTty | Closed => read_as!(Desc, DescRec),
        File | NoFile => read_as!(File, FileRec),
        Entry => read_as!(Cache, CacheRec),
        Terminal => read_as!(Term, TermRec),
        Row => read_as!(Row, RowRec),
        Exit => read_as!(Exit, ExitRec),
    }
}

// A word of such a record, values with which it is read once it is sealed again, and values with which it is not.
const RANGES: [(Like, usize, &[u32], &[u32]); 48] = [
    (Head, 0, &[], &[0x4845_4143]),
    (Head, 1, &[1], &[0, 2]),
    (Head, 4, &[1, 257], &[0, 258]),
    (Head, 5, &[0, 63], &[64]),
    (Head, 6, &[0], &[1]),
    (Caller, 1, &[2], &[4]),
    (Caller, 2, &[1, 256], &[0, 257]),
    (Caller, 3, &[0, 256], &[257]),
    (Caller, 6, &[1, 64], &[0, 65]),
    (Caller, 7, &[0, 64], &[65]),
    (Caller, 8, &[0x3e_d000], &[0x3e_d001, u32::MAX]),
    (Caller, 11, &[0, 3], &[4]),
    (Caller, 13, &[0, 32], &[33]),
    (Caller, 126, &[0], &[1]),
    (Outside, 4, &[0], &[1]),
    (Ended, 2, &[1, 256], &[0, 257]),
    (Ended, 3, &[0, 256], &[257]),
    (Ended, 12, &[0, 0xff, 0x101, 0x10f], &[0x100, 0x110, 0x1ff]),
    (Ended, 12, &[0x200, 0x20f, 0x300, 0x30f], &[0x210, 0x310]),
    (Free, 2, &[0], &[1]),
    (Signals, 2, &[0, 0x8000], &[1, 0x1_0000]),
    (Signals, 18, &[0], &[1]),
    (Description, 1, &[1], &[0, 2, 3]),
    (Description, 2, &[0, 31], &[32]),
    (Description, 3, &[1, 3], &[0, 4]),
    (Description, 5, &[0], &[1]),
    (OnTty, 2, &[0, 1], &[2]),
    (OnTty, 4, &[0], &[1]),
    (File, 1, &[1], &[0, 2]),
    (File, 2, &[3], &[0, 2, 4, 25]),
    (File, 3, &[0x7a_7e21], &[0x7a_7e20, 0x7a_7f61, 0x017a_7e61]),
    (File, 8, &[0], &[0x0100_0000]),
    (File, 10, &[2, 3, 64], &[1, 65]),
    (File, 11, &[0, 2047], &[2048]),
    (File, 13, &[0], &[1]),
    (File, 94, &[0], &[1]),
    (NoFile, 2, &[0], &[1]),
    (Entry, 1, &[1, 2], &[0, 3]),
    (Entry, 2, &[0, 31], &[32]),
    (Entry, 3, &[0, 63], &[64]),
    (Entry, 6, &[0], &[1]),
    (Terminal, 1, &[0, 1], &[2]),
    (Terminal, 3, &[0, 255], &[256]),
    (Terminal, 5, &[0, 23], &[24]),
    (Terminal, 7, &[0, 79], &[80]),
    (Row, 1, &[0, 47], &[48]),
    (Row, 22, &[0], &[1]),
    (Exit, 2, &[0xff, 0x101, 0x20f, 0x300], &[0x100, 0x310]),
];

// Such a record is read once a word of it is changed and it is sealed again.
fn is_read_with(like: Like, words: &Words, count: usize, word: usize, value: u32) -> bool {
    let mut changed = *words;
    changed[word % 128] = value;
    put_seal(&mut changed[..count.clamp(2, 128)]);
    read(like, &changed).is_some()
}

#[test]
fn records_by_their_words(rt: HostRuntime) {
    for (like, count, kind, rest, seal) in SPELLED {
        let mut words = words_of(like, kind, rest);
        if seal != 0 {
            words[count.clamp(1, 128) - 1] = seal;
            let whole = like == Free || read(like, &words) == Some((value(like), words));
            assert!(rt; whole, "{like:?}");
            assert!(rt; is_read_with(like, &words, count, 0, kind), "{like:?}");
        }
        for (of, word, good, bad) in RANGES {
            for value in good.iter().filter(|_| of == like) {
                assert!(rt;
                    is_read_with(like, &words, count, word, *value),
                    "{like:?} {word} {value:x}"
                );
            }
            for value in bad.iter().filter(|_| of == like) {
                assert!(rt;
                    !is_read_with(like, &words, count, word, *value),
                    "{like:?} {word} {value:x}"
                );
            }
        }
    }
}
