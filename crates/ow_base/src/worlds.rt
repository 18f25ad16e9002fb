//! Plain data of worlds and runs: what a world text says, and what a panic leaves.

use crate::machine::{AreaId, FRAME_WORDS, Shape};
use crate::memory::WordSource;
use crate::sequence::List;
use arrayvec::ArrayVec;

/// A typed byte, and the number of the trap at which it arrives.
#[derive(Clone, Copy, Debug, PartialEq, Eq)]
pub struct KeyByte {
    pub trap: u32,
    pub byte: u8,
}

/// A file of a world: its name and its bytes.
#[derive(Debug, Drop)]
pub struct FileText {
    pub name: List<u8>,
    pub bytes: List<u8>,
}

/// A program: its name, the words of its code and the words of its data.
#[derive(Debug, Drop)]
pub struct Program {
    pub name: List<u8>,
    pub code: List<u32>,
    pub values: List<u32>,
}

/// A process that is started: the place of its program in the load, and its terminal (0 or 1).
#[derive(Clone, Copy, Debug, PartialEq, Eq)]
pub struct Start {
    pub program: u32,
    pub tty: u32,
}

/// What a machine is loaded with before it runs.
#[derive(Debug, Drop)]
pub struct Load {
    pub shape: Shape,
    pub files: List<FileText>,
    pub programs: List<Program>,
    pub starts: List<Start>,
}

/// What a damage line names.
#[derive(Clone, Copy, Debug, PartialEq, Eq)]
pub enum DamageKind {
    Head,
    Proc,
    Sig,
    Open,
    File,
    Cache,
    Term,
    Row,
    Owner,
    Table,
    Cached,
    Page,
}

/// A word that a panic damages, and the bits that change in it. For `Page` the index is the slot.
#[derive(Clone, Copy, Debug, PartialEq, Eq)]
pub struct Damage {
    pub kind: DamageKind,
    pub index: u32,
    pub page: u32,
    pub word: u32,
    pub mask: u32,
}

impl Default for Damage {
    ghost use Rattle.std.specs.Prelude.{◌≡◌};

    /// The first word of the head, in which no bit changes.
    fn default() -> Self
        ensures { result ≡ record { kind = DamageKind.Head; index = 0; page = 0; word = 0; mask = 0 } }
    {
        Damage {
            kind: DamageKind::Head,
            index: 0,
            page: 0,
            word: 0,
            mask: 0,
        }
    }
}

/// A panic of a world: the trap and the store that is refused, with what it damages and which of
/// the resurrection's stores are refused after it.
#[derive(Debug, Drop)]
pub struct PanicLine {
    pub trap: u32,
    pub store: u32,
    pub damages: List<Damage>,
    pub agains: List<u32>,
}

/// A panic that a machine is armed with: at most 16 damages and 4 refusals of the resurrection.
#[derive(Debug, Drop)]
pub struct Point {
    pub trap: u32,
    pub store: u32,
    pub damages: ArrayVec<Damage, 16>,
    pub agains: ArrayVec<u32, 4>,
}

/// A word of memory that a panic damaged, and the bits that changed in it.
#[derive(Clone, Copy, Debug, PartialEq, Eq)]
pub struct Hurt {
    pub frame: u32,
    pub word: u32,
    pub mask: u32,
}

impl Default for Hurt {
    ghost use Rattle.std.specs.Prelude.{◌≡◌};

    /// The first word of memory, in which no bit changed.
    fn default() -> Self
        ensures { result ≡ record { frame = 0; word = 0; mask = 0 } }
    {
        Hurt {
            frame: 0,
            word: 0,
            mask: 0,
        }
    }
}

/// A panic that happened: its trap, the number of stores made in it, and the listed store; whether the end of the trap
/// was refused, the process of the trap, and the area of the kernel that panicked; the words of memory and of the disk,
/// and how many bytes were written on each terminal; the damage that is listed, that which was done so far, and the
/// refusals of the resurrection that came.
#[derive(Debug, Drop)]
pub struct PanicRecord {
    pub trap: u32,
    pub store: u32,
    pub listed: u32,
    pub at_leave: bool,
    pub pid: u32,
    pub area: AreaId,
    pub image: List<u32>,
    pub disk: List<u32>,
    pub tapes: [u32; 2],
    pub lines: ArrayVec<Damage, 16>,
    pub damage: ArrayVec<Hurt, 16>,
    pub broken: ArrayVec<u32, 4>,
}

/// The words of memory when the panic came.
impl WordSource for PanicRecord {
    ghost use Rattle.ow_base.specs.Images.{words_in};

    ghost words = { λ r. words_in r.image };

    #[tactic(auto, unfolding(crate::specs::Images::words_in))]
    fn load(&self, frame: u32, word: u32) -> Option<u32> {
        let image = self.image.items();
        let frame = frame as usize;
        if frame < image.len() / FRAME_WORDS as usize {
            Some(image[FRAME_WORDS as usize * frame + word as usize])
        } else {
            None
        }
    }
}

/// A world: the load, the bytes that are typed on the two terminals, and the panics.
#[derive(Debug, Drop)]
pub struct World {
    pub load: Load,
    pub typed0: List<KeyByte>,
    pub typed1: List<KeyByte>,
    pub panics: List<PanicLine>,
}

/// How a run ends.
#[derive(Clone, Copy, Debug, PartialEq, Eq)]
pub enum Ending {
    Done,
    Budget,
    Restarted,
}
