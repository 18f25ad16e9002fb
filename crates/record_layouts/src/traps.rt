//! The traps of a kernel, by name.

ghost use Rattle.std.specs.Prelude.{◌≡◌, Some, None};
ghost use Rattle.ow_base.specs.declared.machine.Shape.{Shape};
ghost use Rattle.ow_base.specs.declared.worlds.Ending.{Ending};
ghost use Rattle.record_layouts.specs.Unix.State.{Unix};
ghost use Rattle.record_layouts.specs.Unix.Choice.{no_keys, settled};
ghost use Rattle.record_layouts.specs.Unix.Turn.{closed, ending_of, turn};
ghost use Rattle.record_layouts.specs.Unix.Traps.{after_trap, came_of, closing_of, next_trap, pid_of, trap_of_turn, turned_by};

use ow_base::Came;

/// A trap, with the pid of the process that has it.
#[derive(Clone, Copy, Debug, PartialEq, Eq)]
pub enum Trap {
    /// A process enters a call, of which the trap makes the first piece.
    Entry(u32),
    /// A call in progress makes a further piece.
    Piece(u32),
    /// An instruction raises an exception of this cause.
    Fault { pid: u32, cause: u32 },
    /// The slice of a process ends.
    Slice(u32),
    /// A signal goes to a process.
    Signal { pid: u32, signal: u32 },
    /// No process can run.
    Idle,
    /// The run ends, with this process in user mode or with none.
    Closing(Option<u32>),
}

impl Trap {
    /// The pid of the process that has the trap.
    pub const fn pid(self) -> Option<u32>
        ensures { result ≡ pid_of self }
    {
        match self {
            Trap::Entry(pid) | Trap::Piece(pid) | Trap::Slice(pid) => Some(pid),
            Trap::Fault { pid, .. } | Trap::Signal { pid, .. } => Some(pid),
            Trap::Idle => None,
            Trap::Closing(pid) => pid,
        }
    }

    /// From where the processor comes into the kernel.
    pub const fn came(self) -> Came
        ensures { result ≡ came_of self }
    {
        match self {
            Trap::Entry(_) => Came::Call,
            Trap::Fault { .. } | Trap::Slice(_) => Came::User,
            Trap::Piece(_) | Trap::Signal { .. } | Trap::Idle => Came::Kernel,
            Trap::Closing(_) => Came::Closing,
        }
    }
}

/// A law; the function does nothing. A turn is what its trap makes of the settled state, or an instruction where it has
/// none. Where a run goes on, this trap is the next one, and where it ends the closing trap is.
pub const fn turns_are_traps()
    ensures turn { (shape : Shape) (u : Unix) → turn shape u ≡ turned_by (settled no_keys u) (trap_of_turn no_keys shape u) }
    ensures next { (shape : Shape) (u : Unix) → ending_of shape u ≡ None → next_trap no_keys shape u ≡ trap_of_turn no_keys shape u }
    ensures closing { (shape : Shape) (u : Unix) (ending : Ending) → ending_of shape u ≡ Some ending → next_trap no_keys shape u ≡ Some (closing_of u) }
    ensures closed { (u : Unix) → after_trap u (closing_of u) ≡ closed u }
{}
