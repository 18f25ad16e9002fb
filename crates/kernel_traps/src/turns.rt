//! One turn of the machine.

use record_layouts::Trap;

/// What a turn was.
#[derive(Clone, Copy, Debug, PartialEq, Eq)]
pub enum Turn {
    /// An instruction of the process in user mode.
    Step,
    /// A trap.
    Trap,
    /// None: no process is live, and nothing was done.
    AllEnded,
}

/// What a turn comes to before any trap of it is made.
pub(crate) enum Next {
    /// An instruction was made.
    Step,
    /// This trap is to be made.
    Trap(Trap),
    /// No process is live.
    AllEnded,
}
