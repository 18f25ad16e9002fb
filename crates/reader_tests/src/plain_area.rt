//! The words of an area with a valid open intent written over them, and the records by these, as the tables of the layout
//! say.

use crate::left_memory::{LeftMemory, SECTORS, first_frame};
use crate::plain_records::{Kind, folded, word};
use dead_reader::DeadMemory;
use ow_base::AreaId;
use std::alloc::{AllocError, Global};

/// The place of the gate, of the payload behind it and of the seal of the intent block, the most words that a payload
/// has, and the word with which the seal begins.
pub(crate) const GATE: usize = 16;

pub(crate) const PAYLOAD: usize = 17;

pub(crate) const SEAL: usize = 1023;

pub(crate) const MOST_PAYLOAD: u32 = 1006;

const INTENT_KIND: u32 = 0x494e_5445;

// The first owner word of user frames, and of the entries of the cache, and the first root table.
const OWNERS: usize = 10240;

const CACHE_OWNERS: usize = 11200;

const TABLES: usize = 16384;

/// What the words of an area say: its own words, and those with the ranges of a valid open intent, where there is one.
#[derive(Drop)]
pub(crate) struct PlainArea<'m> {
    own: &'m [u32],
    laid: Option<Vec<u32>>,
    is_broken: bool,
    pub(crate) first_frame: u32,
    pub(crate) user_frames: u32,
}

impl<'m> PlainArea<'m> {
    pub(crate) fn of(alloc: Global, memory: &'m LeftMemory) -> Result<PlainArea<'m>, AllocError> {
        let own = memory.words();
        let laid = match open_payload(own) {
            Some(payload) if are_ranges(payload) => Some(laid_over(alloc, own, payload)?),
            _ => None,
        };
        Ok(PlainArea {
            own,
            is_broken: word(own, GATE) != 0 && laid.is_none(),
            laid,
            first_frame: first_frame(memory.area(), memory.user_frames()),
            user_frames: memory.user_frames(),
        })
    }
}

impl PlainArea<'_> {
    fn words(&self) -> &[u32] {
        match &self.laid {
            Some(words) => words.as_slice(),
            None => self.own,
        }
    }

    /// The words of a record, where they are one of its kind. The head is none under a gate that is broken.
    pub(crate) fn record(&self, kind: Kind, index: u32) -> Option<&[u32]> {
        let layout = kind.layout();
        let place = layout.place(index);
        let words = self.words().get(place..place + layout.words as usize)?;
        let is_hidden = kind == Kind::Head && self.is_broken;
        if kind.is_spelled_by(words, SECTORS) && !is_hidden {
            Some(words)
        } else {
            None
        }
    }

    /// The owner word of a user frame, 0 where there is no such frame.
    pub(crate) fn owner(&self, number: u32) -> u32 {
        if number < self.user_frames {
            word(self.words(), OWNERS + number as usize)
        } else {
            0
        }
    }

    pub(crate) fn cache_owner(&self, entry: u32) -> u32 {
        word(self.words(), CACHE_OWNERS + entry as usize)
    }

    /// A word of a table of a slot: table 0 is the root, 1 the low one and 2 the high one.
    pub(crate) fn table_word(&self, slot: u32, table: u32, place: u32) -> u32 {
        let frame = 3 * slot as usize + table as usize;
        word(self.words(), TABLES + 1024 * frame + place as usize)
    }
}

// The payload of an intent that is open with its right seal.
fn open_payload(words: &[u32]) -> Option<&[u32]> {
    let count = word(words, GATE);
    if count == 0 || count > MOST_PAYLOAD {
        return None;
    }
    let payload = words.get(PAYLOAD..PAYLOAD + count as usize)?;
    if word(words, SEAL) == intent_seal(count, payload) {
        Some(payload)
    } else {
        None
    }
}

/// The seal of an intent with this gate and this payload.
pub(crate) fn intent_seal(gate: u32, payload: &[u32]) -> u32 {
    let mut seal = folded(&[INTENT_KIND, gate]);
    for word in payload {
        seal = seal.rotate_left(5) ^ *word;
    }
    seal
}

// The range with which a payload begins: the number of its first word, its words, and the payload behind it.
fn first_range(payload: &[u32]) -> Option<(usize, &[u32], &[u32])> {
    let [frame, first, count, rest @ ..] = payload else {
        return None;
    };
    if *first >= 1024 {
        return None;
    }
    let (words, others) = rest.split_at_checked(*count as usize)?;
    Some((1024 * *frame as usize + *first as usize, words, others))
}

// The range lies in the head, in frames 1 to 9, or in frame 11.
fn may_change(begin: usize, count: usize) -> bool {
    let end = begin.wrapping_add(count);
    let is_of_records = 1024 <= begin && begin < 10240 && end <= 10240;
    let is_of_exits = 11264 <= begin && begin < 12288 && end <= 12288;
    begin < 16 && end <= 16 || is_of_records || is_of_exits
}

// The payload is ranges of words that may change, and nothing else.
fn are_ranges(payload: &[u32]) -> bool {
    let mut left = payload;
    for _ in 0..MOST_PAYLOAD {
        match first_range(left) {
            Some((begin, words, others)) if may_change(begin, words.len()) => left = others,
            _ => return left.is_empty(),
        }
    }
    left.is_empty()
}

// The words with the ranges of a payload written over them, one after the other.
fn laid_over(alloc: Global, own: &[u32], payload: &[u32]) -> Result<Vec<u32>, AllocError> {
    let mut words = Vec::from_slice(alloc, own)?;
    let mut left = payload;
    for _ in 0..MOST_PAYLOAD {
        let Some((begin, values, others)) = first_range(left) else {
            return Ok(words);
        };
        write_over(words.as_mut_slice(), begin, values);
        left = others;
    }
    Ok(words)
}

fn write_over(words: &mut [u32], begin: usize, values: &[u32]) {
    for (to, from) in words.iter_mut().skip(begin).zip(values) {
        *to = *from;
    }
}
