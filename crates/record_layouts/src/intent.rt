//! The intent block of an area.
//!
//! An intent changes words of several records at once. Its payload is a list of ranges: of each the frame and the place
//! of its first word, how many words there are, and what they become. The gate tells how many words of payload there
//! are; the block's last word is the seal of the gate and of these.
ghost use Rattle.std.specs.Prelude.{◌≡◌, ℕ, ◌+◌, ◌-◌, ◌*◌, ◌^◌, ◌<◌, ◌≤◌, true, IfSome, IfNone, None, is_some, length, slice_index, if◌then◌else◌};
ghost use Rattle.record_layouts.specs.Overlay.{EndsOpen, StandsFirst, area_at, gate_of, intent_seal, is_within, laid, lies_in, may_change, open_ranges, or_none, overlay, ranges_in, values_end, words_from};

use crate::layout::AREA_FRAMES;
use ow_base::{FRAME_WORDS, WordSource, seal};

/// The word of an area that is the gate.
pub const GATE: u32 = 16;

/// The first word of the payload, which lies behind the gate.
pub const PAYLOAD: u32 = 17;

// The most words that a payload has.
const MOST_PAYLOAD: u32 = 1006;

// The words of a range before those that it spells.
const RANGE_HEAD: u32 = 3;

/// The word of an area that holds the seal of the gate and the payload.
pub const SEAL: u32 = 1023;

/// The word with which that seal begins.
pub const INTENT_KIND: u32 = 0x494e_5445;

// The head, which an intent may change.
const HEAD: Span = Span { begin: 0, end: 16 };

// The frames of processes, signals, descriptions, files, caches, terminals and rows, which it may change too.
const RECORDS: Span = Span {
    begin: FRAME_WORDS,
    end: 10 * FRAME_WORDS,
};

// The frame of exit records, the last that it may change.
const EXITS: Span = Span {
    begin: 11 * FRAME_WORDS,
    end: 12 * FRAME_WORDS,
};

/// What the intent block of an area says.
#[derive(Clone, Copy, Debug, PartialEq, Eq)]
pub enum Gate {
    /// No intent is open.
    Closed,
    /// A valid intent is open: the area's words are read with its ranges laid over them.
    Open,
    /// The gate is not 0, and no valid intent is open: the area cannot be read.
    Broken,
}

/// The words of a kernel's area, in the 64 frames from `base` on. Word w of frame f has the number 1,024 f + w. A word
/// that memory does not have reads as 0.
#[derive(Drop)]
pub(crate) struct Area<'a, W> {
    pub(crate) source: &'a W,
    pub(crate) base: u32,
    ghost room: { base + 64 ≤ 2 ^ 32 },
}

/// Words of an area that lie one behind the other, from the number `begin` on and before `end`.
#[derive(Clone, Copy, Debug, PartialEq, Eq)]
pub struct Span {
    pub begin: u32,
    pub end: u32,
}

/// Words of the area that an intent changes, and the number of the first of their new values, which lie in its payload
/// one behind the other.
#[derive(Clone, Copy, Debug, PartialEq, Eq)]
pub struct Change {
    pub span: Span,
    pub values: u32,
}

impl Change {
    /// The number behind the last new value, where the payload's next range begins.
    pub fn values_end(self) -> u32
        requires order { self.span.begin ≤ self.span.end }
        requires fits { self.values + (self.span.end - self.span.begin) < 2 ^ 32 }
        ensures { result ≡ values_end self }
    {
        self.values + (self.span.end - self.span.begin)
    }
}

impl Span {
    fn contains(self, number: u32) -> bool
        ensures { result ≡ lies_in self.begin self.end number }
    {
        self.begin <= number && number < self.end
    }

    // Whether the other begins in this one, and ends by its end.
    fn encloses(self, other: Span) -> bool
        ensures { result ≡ is_within self.begin self.end other.begin other.end }
    {
        self.contains(other.begin) && other.end <= self.end
    }

    // Whether an intent may change these words.
    fn may_change(self) -> bool
        ensures { result ≡ may_change self.begin self.end }
    {
        HEAD.encloses(self) || RECORDS.encloses(self) || EXITS.encloses(self)
    }
}

impl<W: WordSource> Area<'_, W> {
    /// The word of this number.
    pub(crate) fn word(&self, number: u32) -> u32
        requires number { number < 65536 }
        ensures { result ≡ area_at (W.words self.now.source.now) self.now.base number }
    {
        self.source
            .load(self.base + number / FRAME_WORDS, number % FRAME_WORDS)
            .unwrap_or(0)
    }

    /// What the intent block says, where `end` is the answer of `open_end`.
    pub(crate) fn gate(&self, end: Option<u32>) -> Gate
        requires open { IfSome end (EndsOpen (area_at (W.words self.now.source.now) self.now.base)) }
        requires closed { IfNone end (open_ranges (area_at (W.words self.now.source.now) self.now.base) ≡ None) }
        ensures { result ≡ gate_of (area_at (W.words self.now.source.now) self.now.base) }
    {
        if self.word(GATE) == 0 {
            Gate::Closed
        } else if end.is_some() {
            Gate::Open
        } else {
            Gate::Broken
        }
    }

    /// Fills `words` with those from the number `first` on, with a valid open intent laid over them. `end` is the
    /// answer of `open_end`.
    pub(crate) fn read(&self, end: Option<u32>, first: u32, words: &mut [u32])
        requires room { first + length words.old ≤ 65536 }
        requires open { IfSome end (EndsOpen (area_at (W.words self.now.source.now) self.now.base)) }
        requires closed { IfNone end (open_ranges (area_at (W.words self.now.source.now) self.now.base) ≡ None) }
        ensures { words.new ≡ words_from (overlay (area_at (W.words self.now.source.now) self.now.base)) first (length words.old) }
    {
        match end {
            Some(end) => self.read_laid(end, first, words),
            None => self.read_own(first, words),
        }
    }

    // Fills `words` with those from the number `first` on, as they are in memory.
    fn read_own(&self, first: u32, words: &mut [u32])
        requires { first + length words.old ≤ 65536 }
        ensures { words.new ≡ words_from (area_at (W.words self.now.source.now) self.now.base) first (length words.old) }
    {
        for (k, word) in words.iter_mut().enumerate() {
            *word = self.word(first + k as u32);
        }
    }

    // Fills `words` with those from the number `first` on, with the open intent laid over them whose payload ends at `end`.
    fn read_laid(&self, end: u32, first: u32, words: &mut [u32])
        requires room { first + length words.old ≤ 65536 }
        requires open { EndsOpen (area_at (W.words self.now.source.now) self.now.base) end }
        ensures { words.new ≡ words_from (overlay (area_at (W.words self.now.source.now) self.now.base)) first (length words.old) }
    {
        self.read_own(first, words);
        let mut place = PAYLOAD;
        while let Some(change) = self.change(place, end) {
            self.lay(change, first, words);
            place = change.values_end();
        }
    }

    // Puts the new values of a change into `words`, which stand for those from the number `first` on, as far as they are
    // among these.
    fn lay(&self, change: Change, first: u32, words: &mut [u32])
        requires room { first + length words.old ≤ 65536 }
        requires order { change.span.begin ≤ change.span.end }
        requires values { change.values + (change.span.end - change.span.begin) ≤ 1023 }
        ensures long { length words.new ≡ length words.old }
        ensures each { (j : ℕ) → j < length words.old → slice_index words.new j
            ≡ (if lies_in change.span.begin change.span.end (first + j) then area_at (W.words self.now.source.now) self.now.base (change.values + ((first + j) - change.span.begin)) else slice_index words.old j) }
    {
        let begin = first.max(change.span.begin);
        let end = (first + words.len() as u32).min(change.span.end);
        for number in begin..end {
            words[(number - first) as usize] = self.word(
                change.values + (number - change.span.begin),
            );
        }
    }

    /// The word of this number, with a valid open intent laid over it. `end` is the answer of `open_end`.
    #[tactic(auto, unfolding(crate::specs::Overlay::overlay, crate::specs::Overlay::laid))]
    pub(crate) fn shown(&self, end: Option<u32>, number: u32) -> u32
        requires number { number < 65536 }
        requires open { IfSome end (EndsOpen (area_at (W.words self.now.source.now) self.now.base)) }
        requires closed { IfNone end (open_ranges (area_at (W.words self.now.source.now) self.now.base) ≡ None) }
        ensures { result ≡ overlay (area_at (W.words self.now.source.now) self.now.base) number }
    {
        match end {
            Some(end) => self.laid(end, number),
            None => self.word(number),
        }
    }

    /// Where the payload of the open intent ends, if this is valid.
    #[tactic(auto, unfolding(crate::specs::Overlay::open_ranges))]
    pub(crate) fn open_end(&self) -> Option<u32>
        ensures found { IfSome result (EndsOpen (area_at (W.words self.now.source.now) self.now.base)) }
        ensures none { IfNone result (open_ranges (area_at (W.words self.now.source.now) self.now.base) ≡ None) }
    {
        let count = self.word(GATE);
        if count == 0 || count > MOST_PAYLOAD {
            return None;
        }
        let end = PAYLOAD + count;
        if self.word(SEAL) == self.seal(end) && self.holds_ranges(end) {
            Some(end)
        } else {
            None
        }
    }

    // The seal that belongs to the words from the gate up to `end`.
    fn seal(&self, end: u32) -> u32
        requires begin { 17 ≤ end }
        requires end { end ≤ 1023 }
        ensures { result ≡ intent_seal (area_at (W.words self.now.source.now) self.now.base) end }
    {
        let mut so_far = INTENT_KIND;
        for number in GATE..end {
            so_far = seal(so_far, &[self.word(number)]);
        }
        so_far
    }

    // Whether the payload up to `end` is a list of ranges.
    fn holds_ranges(&self, end: u32) -> bool
        requires begin { 17 ≤ end }
        requires end { end ≤ 1023 }
        ensures { result ≡ is_some (ranges_in (words_from (area_at (W.words self.now.source.now) self.now.base) 17 (end - 17))) }
    {
        let mut place = PAYLOAD;
        while place < end {
            match self.change(place, end) {
                Some(change) => place = change.values_end(),
                None => return false,
            }
        }
        true
    }

    // What the ranges of the payload up to `end` make of the word of this number.
    fn laid(&self, end: u32, number: u32) -> u32
        requires begin { 17 ≤ end }
        requires end { end ≤ 1023 }
        requires number { number < 65536 }
        requires ranges { is_some (ranges_in (words_from (area_at (W.words self.now.source.now) self.now.base) 17 (end - 17))) ≡ true }
        ensures { result ≡ laid (or_none (ranges_in (words_from (area_at (W.words self.now.source.now) self.now.base) 17 (end - 17)))) number (area_at (W.words self.now.source.now) self.now.base number) }
    {
        let mut word = self.word(number);
        let mut place = PAYLOAD;
        while let Some(change) = self.change(place, end) {
            if change.span.contains(number) {
                word = self.word(change.values + (number - change.span.begin));
            }
            place = change.values_end();
        }
        word
    }

    /// The change that the payload from `place` up to `end` begins with, if a range of words that may change stands there.
    pub(crate) fn change(&self, place: u32, end: u32) -> Option<Change>
        requires place { place ≤ end }
        requires end { end ≤ 1023 }
        ensures found { IfSome result (StandsFirst (area_at (W.words self.now.source.now) self.now.base) place end) }
        ensures changes { IfSome result (λ change. may_change change.span.begin change.span.end ≡ true) }
        ensures none { IfNone result (place < end → ranges_in (words_from (area_at (W.words self.now.source.now) self.now.base) place (end - place)) ≡ None) }
    {
        if end - place < RANGE_HEAD {
            return None;
        }
        let frame = self.word(place);
        let first = self.word(place + 1);
        let count = self.word(place + 2);
        let values = place + RANGE_HEAD;
        if frame >= AREA_FRAMES || first >= FRAME_WORDS || count > end - values {
            return None;
        }
        let begin = FRAME_WORDS * frame + first;
        let span = Span {
            begin,
            end: begin + count,
        };
        if span.may_change() {
            Some(Change { span, values })
        } else {
            None
        }
    }
}
