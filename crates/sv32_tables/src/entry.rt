//! The entries of page tables (RISC-V manual, volume II, Sv32).

ghost use Rattle.std.specs.Prelude.{◌≡◌, ◌<◌, ◌^◌};
ghost use Rattle.ow_base.specs.Sv32.{is_set, frame_named, is_valid, is_leaf, permits, allows};
ghost use Rattle.sv32_tables.specs.Entries.{leaf_word, pointer_word};
ghost use Rattle.sv32_tables.specs.Flags.{place_of};

use ow_base::{Access, Rights};

// The frame of an entry stands above its ten lowest bits.
const FRAME_UNIT: u32 = 1024;

// The flags of an entry that a walk asks for. It asks for no other: G and the two for software count nowhere.
#[derive(Clone, Copy)]
enum Flag {
    Valid,
    Read,
    Write,
    Execute,
    User,
    Accessed,
    Dirty,
}

impl Flag {
    // The flag alone in an entry.
    const fn bit(self) -> u32
        ensures { result ≡ 2 ^ place_of self }
    {
        match self {
            Flag::Valid => 1,
            Flag::Read => 2,
            Flag::Write => 4,
            Flag::Execute => 8,
            Flag::User => 16,
            Flag::Accessed => 64,
            Flag::Dirty => 128,
        }
    }
}

/// An entry of a page table.
#[derive(Clone, Copy)]
pub struct Entry {
    pub word: u32,
}

impl Entry {
    fn has(self, flag: Flag) -> bool
        ensures { result ≡ is_set self.word (place_of flag) }
    {
        self.word / flag.bit() % 2 == 1
    }

    /// The frame that the entry names, its PPN: that of a page, or of a further table.
    pub fn frame(self) -> u32
        ensures value { result ≡ frame_named self.word }
        ensures fits { result < 2 ^ 22 }
    {
        self.word / FRAME_UNIT
    }

    /// Whether the entry counts. W without R is reserved, and does not.
    #[tactic(auto, unfolding(ow_base::specs::Sv32::is_valid))]
    pub fn is_valid(self) -> bool
        ensures { result ≡ is_valid self.word }
    {
        self.has(Flag::Valid) && (self.has(Flag::Read) || !self.has(Flag::Write))
    }

    /// Whether the entry, if it counts, leads to pages and not to a further table.
    #[tactic(auto, unfolding(ow_base::specs::Sv32::is_leaf))]
    pub fn is_leaf(self) -> bool
        ensures { result ≡ is_leaf self.word }
    {
        self.has(Flag::Read) || self.has(Flag::Execute)
    }

    /// Whether a leaf gives this access to a program. A and D are never set by a walk: where one of them is
    /// wanted and clear, the access is refused.
    #[tactic(auto, unfolding(ow_base::specs::Sv32::permits))]
    pub fn permits(self, access: Access) -> bool
        ensures { result ≡ permits access self.word }
    {
        self.has(Flag::User) && self.has(Flag::Accessed) && self.allows(access)
    }

    fn allows(self, access: Access) -> bool
        ensures { result ≡ allows access self.word }
    {
        match access {
            Access::Fetch => self.has(Flag::Execute),
            Access::Load => self.has(Flag::Read),
            Access::Store => self.has(Flag::Write) && self.has(Flag::Dirty),
        }
    }
}

/// The entry of the last level that gives a program this frame as a page with these rights. A, and D where
/// the page can be written, are set from the start, since no walk sets them.
pub const fn leaf(frame: u32, rights: Rights) -> u32
    requires { frame < 2 ^ 22 }
    ensures { result ≡ leaf_word frame rights }
{
    let shared = Flag::Valid.bit() + Flag::Read.bit() + Flag::User.bit() + Flag::Accessed.bit();
    let own = match rights {
        Rights::Code => Flag::Execute.bit(),
        Rights::Values => Flag::Write.bit() + Flag::Dirty.bit(),
    };
    frame * FRAME_UNIT + shared + own
}

/// The entry of the first level that names this frame as a table of the last level.
pub const fn pointer(frame: u32) -> u32
    requires { frame < 2 ^ 22 }
    ensures { result ≡ pointer_word frame }
{
    frame * FRAME_UNIT + Flag::Valid.bit()
}
