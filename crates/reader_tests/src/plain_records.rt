//! Which words are a record of a kind, as the tables of the layout say, apart from the readers that are tested.
ghost use Rattle.std.specs.Prelude.{◌^◌, ◌<◌};

/// The kinds of records.
#[derive(Clone, Copy, Debug, PartialEq, Eq)]
pub(crate) enum Kind {
    Head,
    Proc,
    Sig,
    Desc,
    File,
    Cache,
    Term,
    Row,
    Exit,
}

/// All kinds.
pub(crate) const KINDS: [Kind; 9] = [
    Kind::Head,
    Kind::Proc,
    Kind::Sig,
    Kind::Desc,
    Kind::File,
    Kind::Cache,
    Kind::Term,
    Kind::Row,
    Kind::Exit,
];

/// The word with which records of a kind begin, the number of the first word of the first of them in an area, how many
/// words each has, and how many there are.
#[derive(Clone, Copy)]
pub(crate) struct Layout {
    pub(crate) kind: u32,
    pub(crate) first: u32,
    pub(crate) words: u32,
    pub(crate) count: u32,
}

impl Layout {
    const fn new(kind: u32, first: u32, words: u32, count: u32) -> Layout {
        Layout {
            kind,
            first,
            words,
            count,
        }
    }

    /// The number of the first word of a record.
    pub(crate) fn place(self, index: u32) -> usize
        ensures { result < 2 ^ 32 }
    {
        self.first.wrapping_add(self.words.wrapping_mul(index)) as usize
    }
}

impl Kind {
    pub(crate) fn layout(self) -> Layout {
        match self {
            Kind::Head => Layout::new(0x4845_4144, 0, 16, 1),
            Kind::Proc => Layout::new(0x5052_4f43, 1024, 128, 16),
            Kind::Sig => Layout::new(0x5349_4753, 3072, 32, 16),
            Kind::Desc => Layout::new(0x4f50_454e, 3584, 16, 32),
            Kind::File => Layout::new(0x4649_4c45, 4096, 96, 32),
            Kind::Cache => Layout::new(0x4341_4348, 7168, 8, 64),
            Kind::Term => Layout::new(0x5445_524d, 7680, 16, 2),
            Kind::Row => Layout::new(0x524f_5753, 8192, 24, 48),
            Kind::Exit => Layout::new(0x4558_4954, 11264, 4, 256),
        }
    }

    /// The words are a record of this kind, on a disk of so many data sectors.
    pub(crate) fn is_spelled_by(self, words: &[u32], sectors: u32) -> bool {
        word(words, 0) == self.layout().kind && is_sealed(words) && self.fits(words, sectors)
    }

    // The fields are in their ranges, and all else is 0.
    fn fits(self, words: &[u32], sectors: u32) -> bool {
        match self {
            Kind::Head => is_head(words),
            Kind::Proc => is_process(words),
            Kind::Sig => word(words, 2) & 0xffff_0001 == 0 && are_zero(words, 18, 31),
            Kind::Desc => is_description(words) && are_zero(words, 5, 15),
            Kind::File => is_file(words, sectors) && are_zero(words, 75, 95),
            Kind::Cache => is_entry(words) && are_zero(words, 4, 7),
            Kind::Term => is_terminal(words) && are_zero(words, 9, 15),
            Kind::Row => word(words, 1) <= 47 && are_zero(words, 22, 23),
            Kind::Exit => is_exit(words),
        }
    }
}

/// A word by its place, 0 where there is none.
pub(crate) fn word(words: &[u32], place: usize) -> u32 {
    words.get(place).copied().unwrap_or(0)
}

// The words from one place on and before another are 0.
fn are_zero(words: &[u32], from: usize, to: usize) -> bool {
    words.iter().take(to).skip(from).all(|word| *word == 0)
}

/// What the words are folded to: each turns what was before it left by five bits, and is joined to it by an exclusive or.
pub(crate) fn folded(words: &[u32]) -> u32 {
    let mut seal = 0u32;
    for word in words {
        seal = seal.rotate_left(5) ^ *word;
    }
    seal
}

// The last word is what those before it are folded to.
fn is_sealed(words: &[u32]) -> bool {
    match words.split_last() {
        Some((seal, others)) => *seal == folded(others),
        None => false,
    }
}

fn is_head(words: &[u32]) -> bool {
    let next = word(words, 4);
    word(words, 1) == 1
        && 1 <= next
        && next <= 257
        && word(words, 5) <= 63
        && are_zero(words, 6, 15)
}

// A process that is free, goes on, or has ended.
fn is_process(words: &[u32]) -> bool {
    let has_pid = (1..=256).contains(&word(words, 2)) && word(words, 3) <= 256;
    match word(words, 1) {
        0 => are_zero(words, 1, 127),
        1 => has_pid && are_zero(words, 4, 6) && goes_on(words),
        2 => has_pid && goes_on(words),
        3 => {
            has_pid
                && are_zero(words, 4, 12)
                && is_status(word(words, 12))
                && are_zero(words, 13, 127)
        }
        _ => false,
    }
}

// The pages, the break, the flags and the descriptors of a process that goes on.
fn goes_on(words: &[u32]) -> bool {
    let (code, data) = (word(words, 6), word(words, 7));
    let pages = code.wrapping_add(data);
    let room = 0x3f_0000u32.wrapping_sub(pages.wrapping_mul(4096));
    (1..=64).contains(&code)
        && data <= 64
        && word(words, 8) <= room
        && word(words, 11) <= 3
        && word(words, 12) == 0
        && words.iter().take(21).skip(13).all(|word| *word <= 32)
        && are_zero(words, 117, 127)
}

// An exit code, a signal from 1 on, the cause of a fault, or what a lost process lost.
fn is_status(status: u32) -> bool {
    status <= 0xff
        || (0x101..=0x10f).contains(&status)
        || (0x200..=0x20f).contains(&status)
        || (0x300..=0x30f).contains(&status)
}

fn is_description(words: &[u32]) -> bool {
    let (index, mode, offset) = (word(words, 2), word(words, 3), word(words, 4));
    match word(words, 1) {
        0 => index == 0 && mode == 0 && offset == 0,
        1 => index <= 31 && (1..=3).contains(&mode),
        2 => index <= 1 && (1..=3).contains(&mode) && offset == 0,
        _ => false,
    }
}

fn is_file(words: &[u32], sectors: u32) -> bool {
    match word(words, 1) {
        0 => are_zero(words, 2, 75),
        1 => is_named(words) && keeps_pages(words, sectors),
        _ => false,
    }
}

// A byte of those that are packed four to a word, the lowest first.
fn byte_of(words: &[u32], number: usize) -> u32 {
    let [a, b, c, d] = word(words, number / 4).to_le_bytes();
    match number % 4 {
        0 => u32::from(a),
        1 => u32::from(b),
        2 => u32::from(c),
        _ => u32::from(d),
    }
}

// The name is 1 to 24 bytes of 33 to 126, and the bytes behind it are 0.
fn is_named(words: &[u32]) -> bool {
    let length = word(words, 2) as usize;
    for number in 0..24 {
        let byte = byte_of(words, 12 + number);
        let is_good = if number < length {
            (33..=126).contains(&byte)
        } else {
            byte == 0
        };
        if !is_good {
            return false;
        }
    }
    1 <= length && length <= 24
}

// At most 64 pages are kept, each in a sector of the disk, and the words behind these sectors are 0.
fn keeps_pages(words: &[u32], sectors: u32) -> bool {
    let kept = word(words, 10);
    let end = 11 + kept as usize;
    kept <= 64
        && words
            .iter()
            .take(end)
            .skip(11)
            .all(|sector| *sector < sectors)
        && are_zero(words, end, 75)
}

fn is_entry(words: &[u32]) -> bool {
    let (file, page) = (word(words, 2), word(words, 3));
    match word(words, 1) {
        0 => file == 0 && page == 0,
        1 | 2 => file <= 31 && page <= 63,
        _ => false,
    }
}

fn is_terminal(words: &[u32]) -> bool {
    word(words, 1) <= 1
        && word(words, 3) <= 255
        && word(words, 5) <= 23
        && word(words, 6) <= 23
        && word(words, 7) <= 79
}

fn is_exit(words: &[u32]) -> bool {
    let value = word(words, 2);
    match word(words, 1) {
        0 => value == 0,
        1 => value <= 15,
        2 => is_status(value),
        _ => false,
    }
}
