//! What a line is by its first word.

ghost use Rattle.std.specs.Prelude.{◌≡◌, bytes_eq};
ghost use Rattle.world_file.specs.WorldLines.{key_of, is_unbuilt_word};

/// What a line of a world text is, by its first word.
#[derive(Clone, Copy, Debug, PartialEq, Eq)]
pub enum Key {
    /// `world 1`, the first line.
    World,
    /// The frames of the machine.
    Frames,
    /// The sectors of the disk.
    Sectors,
    /// The instructions of a slice.
    Quantum,
    /// The steps that a run may take.
    Budget,
    /// The name of a program, whose block begins.
    Program,
    /// Words of the block's code.
    Code,
    /// Words of the block's data.
    Data,
    /// A program that is started, and its terminal.
    Start,
    /// A panic: its trap, and the store that is refused.
    Panic,
    /// The last line.
    End,
    /// A form that cannot be read yet.
    Unbuilt,
    /// No form has this word.
    Unknown,
}

impl Key {
    /// The key that a word is.
    #[tactic(auto, unfolding(crate::specs::WorldLines::key_of))]
    pub fn of(word: &[u8]) -> Key
        ensures { result ≡ key_of word.now }
    {
        if is(word, b"world") {
            Key::World
        } else if is(word, b"frames") {
            Key::Frames
        } else if is(word, b"sectors") {
            Key::Sectors
        } else if is(word, b"quantum") {
            Key::Quantum
        } else if is(word, b"budget") {
            Key::Budget
        } else if is(word, b"program") {
            Key::Program
        } else if is(word, b"code") {
            Key::Code
        } else if is(word, b"data") {
            Key::Data
        } else if is(word, b"start") {
            Key::Start
        } else if is(word, b"panic") {
            Key::Panic
        } else if is(word, b"end") {
            Key::End
        } else if is_unbuilt(word) {
            Key::Unbuilt
        } else {
            Key::Unknown
        }
    }
}

fn is(word: &[u8], other: &[u8]) -> bool
    ensures { result ≡ bytes_eq word.now other.now }
{
    word == other
}

// The first word of a line of files, of typed bytes, or of what is damaged or refused again in a panic.
fn is_unbuilt(word: &[u8]) -> bool
    ensures { result ≡ is_unbuilt_word word.now }
{
    is(word, b"file")
        || is(word, b"put")
        || is(word, b"type")
        || is(word, b"damage")
        || is(word, b"again")
}
