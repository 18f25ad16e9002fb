//! The reasons for which a line is refused, and their words.

ghost use Rattle.std.specs.Prelude.{◌≡◌};
ghost use Rattle.world_file.specs.WorldReasons.{reason_text};

use std::alloc::{AllocError, AllocFailed};
use thiserror::Error;

/// Why a line of a world text is refused, in the order in which the reasons of one line are tried.
#[derive(Clone, Copy, Debug, PartialEq, Eq)]
pub enum Why {
    /// Line 1 is not `world 1`.
    FirstLine,
    /// The line is of a form that cannot be read yet.
    NotBuilt,
    /// The line's first word may not stand here.
    Word,
    /// One line of this kind, or one word, more than there may be.
    TooMany,
    /// The line has too few words, too many, or an empty one.
    Fields,
    /// A number is no numeral, or out of its range.
    Number,
    /// A name is not 1 to 24 bytes of 33 to 126.
    Name,
    /// A word is not eight digits of `0-9a-f`, or is 0 where it may not be.
    Hex,
    /// Bytes are not in escape text.
    Escape,
    /// A name or a damage comes a second time.
    Twice,
    /// A start names no program.
    NoSuchProgram,
    /// A trap's number does not rise.
    Order,
    /// The pages of the starts are more than the frames.
    Frames,
    /// The pages of the files are more than the sectors.
    Sectors,
    /// The text ends before its line `end`, or goes on behind it.
    End,
    /// The text is too long.
    TooLarge,
}

impl Why {
    /// The reason in words.
    pub fn text(self) -> &'static [u8]
        ensures { result.now ≡ reason_text self }
    {
        match self {
            Why::FirstLine => b"first line",
            Why::NotBuilt => b"not built",
            Why::Word => b"word",
            Why::TooMany => b"too many",
            Why::Fields => b"fields",
            Why::Number => b"number",
            Why::Name => b"name",
            Why::Hex => b"hex",
            Why::Escape => b"escape",
            Why::Twice => b"twice",
            Why::NoSuchProgram => b"no such program",
            Why::Order => b"order",
            Why::Frames => b"frames",
            Why::Sectors => b"sectors",
            Why::End => b"end",
            Why::TooLarge => b"too large",
        }
    }
}
