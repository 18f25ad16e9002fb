//! What a trap is to do for a process in its call.

use record_layouts::Patch;

/// What is left to do in the trap of a call. The patch ends the trap: it is committed last.
#[derive(Debug, Drop)]
pub enum Service {
    /// Only the patch is to be committed.
    Once {
        patch: Patch,
    },
    /// The bytes of the process from the address `from` on, `len` of them, 1 to 16, are written on terminal `tty`,
    /// and then the patch is committed.
    TtyWrite {
        tty: u32,
        from: u32,
        len: u32,
        patch: Patch,
    },
    /// So many pages of zeros are prepared behind the heap of the process, and then the patch is committed, which counts
    /// them.
    Grow {
        count: u32,
        patch: Patch,
    },
    /// The pages of the process are copied for the slot of its child, and then the patch is committed, which makes the
    /// child.
    Fork {
        child: u32,
        patch: Patch,
    },
    /// The status word of a child that has ended is stored at an address of the process, and then the patch is committed,
    /// which frees the child's slot.
    PutStatus {
        addr: u32,
        status: u32,
        patch: Patch,
    },
}
