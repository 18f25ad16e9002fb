//! The fields of records as the words that the layout has for them, behind the word that begins a record.

use record_layouts::{
    CacheRec, DescRec, ExitRec, FileRec, HeadRec, ProcRec, RowRec, SigRec, TermRec,
};

pub(crate) fn of_head(rec: HeadRec) -> [u32; 5] {
    [rec.layout, rec.served, rec.last, rec.next, rec.hand]
}

// Lays words over those from a place on.
fn lay(words: &mut [u32], place: usize, part: &[u32]) {
    for (to, from) in words.iter_mut().skip(place).zip(part) {
        *to = *from;
    }
}

pub(crate) fn of_process(rec: ProcRec) -> [u32; 116] {
    let mut words = [0; 116];
    let front = [
        rec.state,
        rec.pid,
        rec.parent,
        rec.call,
        rec.done,
        rec.code_pages,
        rec.data_pages,
        rec.brk,
        rec.procedure,
        rec.mask,
        rec.flags,
        rec.status,
    ];
    lay(&mut words, 0, &front);
    lay(&mut words, 12, &rec.descs);
    lay(&mut words, 20, rec.regs.words());
    lay(&mut words, 51, &[rec.pc]);
    lay(&mut words, 52, rec.handler_save.regs.words());
    lay(&mut words, 83, &[rec.handler_save.pc]);
    lay(&mut words, 84, rec.crash_save.regs.words());
    lay(&mut words, 115, &[rec.crash_save.pc]);
    words
}

pub(crate) fn of_signals(rec: SigRec) -> [u32; 17] {
    let mut words = [0; 17];
    words[0] = rec.pid;
    words[1] = rec.pending;
    words[2..].copy_from_slice(&rec.handlers);
    words
}

pub(crate) fn of_description(rec: DescRec) -> [u32; 4] {
    [rec.object, rec.index, rec.mode, rec.offset]
}

// Packs bytes four to a word, the lowest first.
fn pack(words: &mut [u32], bytes: &[u8]) {
    for (word, four) in words.iter_mut().zip(bytes.chunks_exact(4)) {
        if let [a, b, c, d] = four {
            *word = u32::from_le_bytes([*a, *b, *c, *d]);
        }
    }
}

pub(crate) fn of_file(rec: FileRec) -> [u32; 74] {
    let mut words = [0; 74];
    words[0] = rec.state;
    words[1] = rec.name_len;
    pack(&mut words[2..8], &rec.name);
    words[8] = rec.size;
    words[9] = rec.kept;
    words[10..].copy_from_slice(&rec.sectors);
    words
}

pub(crate) fn of_entry(rec: CacheRec) -> [u32; 3] {
    [rec.state, rec.file, rec.page]
}

pub(crate) fn of_terminal(rec: TermRec) -> [u32; 8] {
    [
        rec.tty,
        rec.written,
        rec.last,
        rec.consumed,
        rec.top,
        rec.row,
        rec.col,
        rec.base,
    ]
}

pub(crate) fn of_row(rec: RowRec) -> [u32; 21] {
    let mut words = [0; 21];
    words[0] = rec.place;
    pack(&mut words[1..], &rec.text);
    words
}

pub(crate) fn of_exit(rec: ExitRec) -> [u32; 2] {
    [rec.state, rec.value]
}
