//! Plain data of the machine: registers, banks, faults, shapes, and why a trap came.

ghost use Rattle.std.specs.Prelude.{◌≡◌, ◌<◌};

use std::marker::Model;

/// The words of a frame of memory.
pub const FRAME_WORDS: u32 = 1024;

/// The registers x1 to x31. x0 is always 0 and is not kept.
#[derive(Clone, Copy, Debug, PartialEq, Eq)]
pub struct Regs {
    words: [u32; 31],
}

impl Model for Regs {
    ghost use Rattle.std.specs.Prelude.{List, ℕ};

    ghost Value = { List ℕ };

    ghost view = { λ r. r.words };

    ghost inverse = { λ ws. record { words = ws } };
}

impl Regs {
    ghost use Rattle.std.specs.Prelude.{replicate};
    ghost use Rattle.ow_base.specs.UserStep.{register, with_register};

    /// All registers 0.
    pub const fn new() -> Regs
        ensures { result ≡ replicate 31 0 }
    {
        Regs { words: [0; 31] }
    }

    /// The words of x1 to x31, in this order.
    pub const fn words(&self) -> &[u32; 31]
        ensures { result.now ≡ self.now }
    {
        &self.words
    }

    /// The word in a register, below 32. x0 gives 0.
    pub fn get(&self, r: u32) -> u32
        requires { r < 32 }
        ensures { result ≡ register self.now r }
    {
        if r == 0 {
            0
        } else {
            self.words[r as usize - 1]
        }
    }

    /// Puts a word in a register, below 32. x0 takes nothing.
    pub fn set(&mut self, r: u32, value: u32)
        requires { r < 32 }
        ensures { self.new ≡ with_register self.old r value }
    {
        if r != 0 {
            self.words[r as usize - 1] = value;
        }
    }
}

/// The registers that hold these words, x1 first.
impl From<[u32; 31]> for Regs {
    ghost from_gives = { λ words regs. regs ≡ words };

    fn from(words: [u32; 31]) -> Regs {
        Regs { words }
    }
}

/// What the processor keeps of a program: where it stands and its registers.
#[derive(Clone, Copy, Debug, PartialEq, Eq)]
pub struct Bank {
    pub pc: u32,
    pub regs: Regs,
}

/// An exception of the processor: its cause and the value that comes with it.
#[derive(Clone, Copy, Debug, PartialEq, Eq)]
pub struct Fault {
    pub cause: u32,
    pub value: u32,
}

/// How many bytes a load or a store moves: 1, 2 or 4.
#[derive(Clone, Copy, Debug, PartialEq, Eq)]
pub enum Width {
    Byte,
    Half,
    Word,
}

/// What a program may do with a page: read and execute it, or read and write it.
#[derive(Clone, Copy, Debug, PartialEq, Eq)]
pub enum Rights {
    Code,
    Values,
}

/// What a program does at an address: it fetches an instruction, loads or stores.
#[derive(Clone, Copy, Debug, PartialEq, Eq)]
pub enum Access {
    Fetch,
    Load,
    Store,
}

/// A place in memory: a frame, and the offset of a byte in it, below 4,096.
#[derive(Clone, Copy, Debug, PartialEq, Eq)]
pub struct Phys {
    pub frame: u32,
    pub offset: u32,
}

/// Why an address leads to no place in memory: the page tables do not give the right to it, or a table or
/// the place itself lies in a frame that is not there.
#[derive(Clone, Copy, Debug, PartialEq, Eq)]
pub enum PageCause {
    Page,
    Access,
}

/// From where the processor came into the kernel.
#[derive(Clone, Copy, Debug, PartialEq, Eq)]
pub enum Came {
    Kernel,
    User,
    Call,
    Closing,
}

/// One of the two areas of memory that a kernel can have.
#[derive(Clone, Copy, Debug, PartialEq, Eq)]
pub enum AreaId {
    A,
    B,
}

/// A kernel store was refused: the kernel has panicked.
#[derive(Clone, Copy, Debug, PartialEq, Eq)]
pub struct Panicked;

/// The call of a user program is refused: a byte of the range lies in no page with the right to it.
#[derive(Clone, Copy, Debug, PartialEq, Eq)]
pub struct Efault;

/// The error that a call of a user program answers, by its number.
#[derive(Clone, Copy, Debug, PartialEq, Eq)]
pub struct Errno(pub u32);

/// What a kernel knows of the machine at a moment: the number of the trap that runs or is to come, how many user
/// frames and data sectors there are, and, of each terminal, how many typed bytes have arrived by that trap and how
/// many there are in all.
#[derive(Clone, Copy, Debug, PartialEq, Eq)]
pub struct Now {
    pub trap: u32,
    pub user_frames: u32,
    pub sectors: u32,
    pub arrived: [u32; 2],
    pub typed: [u32; 2],
}

/// The size of a machine: user frames, data sectors of the disk, instructions in a slice, steps in a run.
#[derive(Clone, Copy, Debug, PartialEq, Eq)]
pub struct Shape {
    pub user_frames: u32,
    pub sectors: u32,
    pub quantum: u32,
    pub budget: u32,
}
