//! The first reason for which a line is refused.

ghost use Rattle.std.specs.Prelude.{◌≡◌, Option};
ghost use Rattle.world_file.specs.WorldLines.{fields};
ghost use Rattle.world_file.specs.WorldReasons.{first_reason, counted_place, place_of, head_place, is_no_first_line, is_unbuilt, exceeds, has_too_many_words, has_fields, lacks_fields, has_no_number, has_no_name, has_no_word, comes_twice, names_no_program, does_not_rise, exceeds_frames};

use crate::key::Key;
use crate::line::{Line, is_name};
use crate::so_far::SoFar;
use crate::why::Why;

// The most words of a line, the most words of code or of data of a block, and the most programs, starts or panics.
const LINE_WORDS: usize = 16;

const BLOCK_WORDS: usize = 65536;

const MOST_PROGRAMS: usize = 16;

const MOST_STARTS: usize = 16;

const MOST_PANICS: usize = 32;

/// Whether a line of a kind may stand behind the lines so far.
#[derive(Clone, Copy, Debug, PartialEq, Eq)]
pub enum Place {
    /// It may.
    Free,
    /// It may not, for the one reason that its kind came just before as often as it may.
    Taken,
    /// It may not at all.
    Barred,
}

// The place of a line of which there may be so many.
fn counted_place(most: usize, count: usize) -> Place
    ensures { result ≡ counted_place most count }
{
    if count < most {
        Place::Free
    } else {
        Place::Taken
    }
}

// The place of one of the first five lines.
fn head_place(key: Key, last: Option<Key>) -> Place
    ensures { result ≡ head_place key last }
{
    match (key, last) {
        (Key::World, None)
        | (Key::Frames, Some(Key::World))
        | (Key::Sectors, Some(Key::Frames))
        | (Key::Quantum, Some(Key::Sectors))
        | (Key::Budget, Some(Key::Quantum)) => Place::Free,
        (Key::World, Some(Key::World))
        | (Key::Frames, Some(Key::Frames))
        | (Key::Sectors, Some(Key::Sectors))
        | (Key::Quantum, Some(Key::Quantum))
        | (Key::Budget, Some(Key::Budget)) => Place::Taken,
        _ => Place::Barred,
    }
}

fn place_of(key: Key, so_far: &SoFar) -> Place
    ensures { result ≡ place_of key so_far.now }
{
    let last = so_far.last();
    match (key, last) {
        (Key::Program, Some(Key::Budget | Key::Code | Key::Data)) => {
            counted_place(MOST_PROGRAMS, so_far.program_count())
        }
        (Key::Start, Some(Key::Code | Key::Data | Key::Start)) => {
            counted_place(MOST_STARTS, so_far.start_count())
        }
        (Key::Panic, Some(Key::Start | Key::Panic)) => {
            counted_place(MOST_PANICS, so_far.panic_count())
        }
        (Key::Code, Some(Key::Program | Key::Code))
        | (Key::Data, Some(Key::Code | Key::Data))
        | (Key::End, Some(Key::Start | Key::Panic)) => Place::Free,
        _ => head_place(key, last),
    }
}

// Line 1 is another than `world 1`.
fn is_no_first_line(so_far: &SoFar, line: &Line) -> bool
    ensures { result ≡ is_no_first_line so_far.now line.now }
{
    so_far.last().is_none() && line.bytes() != b"world 1".as_slice()
}

// The line's form cannot be read yet.
fn is_unbuilt(key: Key) -> bool
    ensures { result ≡ is_unbuilt key }
{
    matches!(key, Key::Unbuilt)
}

// More words than fit on a line, or into a block that has some.
fn exceeds(before: usize, here: usize) -> bool
    ensures { result ≡ exceeds before here }
{
    here > LINE_WORDS || before > BLOCK_WORDS - here
}

fn has_too_many_words(key: Key, so_far: &SoFar, line: &Line) -> bool
    ensures { result ≡ has_too_many_words key so_far.now line.now }
{
    match key {
        Key::Code => exceeds(so_far.code_count(), line.field_count()),
        Key::Data => exceeds(so_far.data_count(), line.field_count()),
        _ => false,
    }
}

fn has_fields(key: Key, count: usize) -> bool
    ensures { result ≡ has_fields key count }
{
    match key {
        Key::Frames | Key::Sectors | Key::Quantum | Key::Budget | Key::Program => count == 1,
        Key::Code | Key::Data => count >= 1,
        Key::Start | Key::Panic => count == 2,
        Key::End => count == 0,
        Key::World | Key::Unbuilt | Key::Unknown => true,
    }
}

// Too few words, too many, or an empty one.
fn lacks_fields(line: &Line) -> bool
    ensures { result ≡ lacks_fields line.now }
{
    !has_fields(line.key(), line.field_count()) || line.has_empty_token()
}

fn has_no_number(key: Key, line: &Line) -> bool
    ensures { result ≡ has_no_number key line.now }
{
    match key {
        Key::Frames => !line.has_number(1, 16, 384),
        Key::Sectors => !line.has_number(1, 1, 2048),
        Key::Quantum => !line.has_number(1, 1, 10000),
        Key::Budget => !line.has_number(1, 0, 2_000_000),
        Key::Start => !line.has_number(2, 0, 1),
        Key::Panic => !line.has_number(1, 1, u32::MAX) || !line.has_number(2, 0, u32::MAX),
        _ => false,
    }
}

fn has_no_name(key: Key, line: &Line) -> bool
    ensures { result ≡ has_no_name key line.now }
{
    match key {
        Key::Program | Key::Start => !is_name(line.token(1)),
        _ => false,
    }
}

fn has_no_word(key: Key, line: &Line) -> bool
    ensures { result ≡ has_no_word key line.now }
{
    match key {
        Key::Code | Key::Data => !line.has_words(),
        _ => false,
    }
}

// The program's name again.
fn comes_twice(key: Key, so_far: &SoFar, line: &Line) -> bool
    ensures { result ≡ comes_twice key so_far.now line.now }
{
    match key {
        Key::Program => so_far.has_program(line.token(1)),
        _ => false,
    }
}

fn names_no_program(key: Key, so_far: &SoFar, line: &Line) -> bool
    ensures { result ≡ names_no_program key so_far.now line.now }
{
    match key {
        Key::Start => !so_far.has_program(line.token(1)),
        _ => false,
    }
}

// The trap of a panic is not above that of the panic line before.
fn does_not_rise(key: Key, so_far: &SoFar, line: &Line) -> bool
    ensures { result ≡ does_not_rise key so_far.now line.now }
{
    match key {
        Key::Panic => line.number(1) <= so_far.last_trap(),
        _ => false,
    }
}

// The pages of all starts, with this one, are more than the frames.
fn exceeds_frames(key: Key, so_far: &SoFar, line: &Line) -> bool
    ensures { result ≡ exceeds_frames key so_far.now line.now }
{
    match key {
        Key::Start => so_far.lacks_frames(line.token(1)),
        _ => false,
    }
}

/// The first reason against a line behind the lines so far.
#[tactic(auto, unfolding(crate::specs::WorldReasons::first_reason))]
pub fn first_reason(so_far: &SoFar, line: &Line) -> Option<Why>
    ensures { result ≡ first_reason so_far.now line.now }
{
    let key = line.key();
    let place = place_of(key, so_far);
    if is_no_first_line(so_far, line) {
        Some(Why::FirstLine)
    } else if is_unbuilt(key) {
        Some(Why::NotBuilt)
    } else if matches!(place, Place::Barred) {
        Some(Why::Word)
    } else if matches!(place, Place::Taken) || has_too_many_words(key, so_far, line) {
        Some(Why::TooMany)
    } else if lacks_fields(line) {
        Some(Why::Fields)
    } else if has_no_number(key, line) {
        Some(Why::Number)
    } else if has_no_name(key, line) {
        Some(Why::Name)
    } else if has_no_word(key, line) {
        Some(Why::Hex)
    } else if comes_twice(key, so_far, line) {
        Some(Why::Twice)
    } else if names_no_program(key, so_far, line) {
        Some(Why::NoSuchProgram)
    } else if does_not_rise(key, so_far, line) {
        Some(Why::Order)
    } else if exceeds_frames(key, so_far, line) {
        Some(Why::Frames)
    } else {
        None
    }
}
