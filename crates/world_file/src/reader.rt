//! The reader of a world text: line after line, up to the first that is refused or to the end.

ghost use Rattle.std.specs.Prelude.{◌≡◌, ℕ, ◌+◌, ◌≤◌, ◌⊎◌, if◌then◌else◌, List, length, IfOk, IfErr, Ok, Err};
ghost use Rattle.ow_base.specs.World.{IsWorld};
ghost use Rattle.ow_base.specs.declared.worlds.World.{World};
ghost use Rattle.world_file.specs.declared.why.Why.{Why};
ghost use Rattle.world_file.specs.declared.reader.WorldFault.TheVariants.{Bad, Memory};
ghost use Rattle.world_file.specs.declared.why.Why.TheVariants.{End};
ghost use Rattle.world_file.specs.WorldLines.{pieces, is_empty};
ghost use Rattle.world_file.specs.WorldReading.{Gives, nothing_said, world_of, read_lines};
ghost use Rattle.world_file.specs.WorldRefusals.{IsBuilt, IsRefused, IsRefusedFault};

use crate::line::{Line, cut};
use crate::reasons::first_reason;
use crate::so_far::SoFar;
use crate::why::Why;
use ow_base::World;
use std::alloc::{AllocError, Global};
use thiserror::Error;

// The most bytes of a text.
const MOST_BYTES: usize = 1_048_576;

/// Why no world was read.
#[derive(Debug, Drop, Error)]
pub enum WorldFault {
    /// The line that is refused, counted from 1, and the reason. Line 0 is the whole text.
    #[error("line {line} of the world text is refused")]
    Bad { line: u32, why: Why },
    #[error("out of memory")]
    Memory(AllocError),
}

impl From<AllocError> for WorldFault {
    ghost from_gives = { λ e fault. fault ≡ Memory e };

    fn from(e: AllocError) -> WorldFault {
        WorldFault::Memory(e)
    }
}

// The world, where nothing is behind the line `end`, before which so many lines stand.
fn ended(alloc: Global, so_far: SoFar, number: u32, ahead: &[u8]) -> Result<World, WorldFault>
    requires count { number ≤ 1048576 }
    ensures { Gives result (if is_empty ahead.now then Ok (world_of so_far) else Err (record { line = number + 2; why = End })) }
{
    if !ahead.is_empty() {
        return Err(WorldFault::Bad {
            line: number + 2,
            why: Why::End,
        });
    }
    Ok(so_far.into_world(alloc)?)
}

// The world of a text's lines.
fn read_lines(alloc: Global, text: &[u8]) -> Result<World, WorldFault>
    requires size { length text.now ≤ 1048576 }
    ensures { Gives result (read_lines nothing_said 0 (pieces 10 text.now)) }
{
    let mut so_far = SoFar::new(alloc);
    let mut number = 0;
    let mut rest = text;
    while let Some((bytes, ahead)) = cut(b'\n', rest) {
        let line = Line::new(alloc, bytes)?;
        if let Some(why) = first_reason(&so_far, &line) {
            return Err(WorldFault::Bad {
                line: number + 1,
                why,
            });
        }
        if bytes == b"end".as_slice() {
            return ended(alloc, so_far, number, ahead);
        }
        so_far = so_far.with_line(alloc, &line)?;
        number += 1;
        rest = ahead;
    }
    Err(WorldFault::Bad {
        line: number + 1,
        why: Why::End,
    })
}

/// A text is that of one world at most.
pub fn one_world()
    ensures { (text : List ℕ) (a b : World) → IsWorld text a → IsWorld text b → a ≡ b }
{}

/// A text is refused at one line at most, for one reason.
pub fn one_refusal()
    ensures { (text : List ℕ) (m n : ℕ) (v w : Why) → IsRefused text m v → IsRefused text n w → (m ≡ n) × (v ≡ w) }
{}

/// No text of a world of the forms that can be read is refused.
pub fn worlds_are_read()
    ensures { (text : List ℕ) (world : World) (line : ℕ) (why : Why) → IsWorld text world → IsBuilt world → IsRefused text line why → ⊥ }
{}

/// A text is of a world of the forms that can be read, or it is refused.
pub fn each_text_is_answered()
    ensures { (text : List ℕ) → ((world : World) × IsWorld text world × IsBuilt world) ⊎ ((line : ℕ) × (why : Why) × IsRefused text line why) }
{}

/// The world that a text spells.
///
/// `Bad` comes exactly where the text is refused, with the line and the reason, and `Memory` where memory runs
/// out.
pub fn read_world(alloc: Global, bytes: &[u8]) -> Result<World, WorldFault>
    // What is read has this text.
    ensures found { IfOk result (λ world. IsWorld bytes.now world) }
    // It is of the forms that can be read.
    ensures built { IfOk result IsBuilt }
    // What is refused is refused at this line, for this reason.
    ensures refused { IfErr result (IsRefusedFault bytes.now) }
{
    if bytes.len() > MOST_BYTES {
        return Err(WorldFault::Bad {
            line: 0,
            why: Why::TooLarge,
        });
    }
    read_lines(alloc, bytes)
}
