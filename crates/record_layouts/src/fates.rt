//! What becomes of a process at a panic.

/// The fate of a process that was live at a panic which the machine survived.
#[derive(Clone, Copy, Debug, PartialEq, Eq)]
pub enum Fate {
    /// It was outside a call, or its call was done, and it goes on.
    Goes,
    /// Its call was answered ECRASH, that a panic aborted it.
    Aborted,
    /// It stands at its call, which it makes again.
    Stands,
    /// It enters its crash procedure with this mask: the sum of 1 for a descriptor that was closed, 2 for a page of a file
    /// that may be lost, 4 for a terminal that was reset, 8 for its signals, and 16 for a call that was aborted. Where the
    /// procedure was running the bits of its old mask are in it too.
    Procedure(u32),
    /// It ended. The number is the sum of the bits 1 to 8 of what it lost, as in a mask, or 0 where the process itself could
    /// not be read.
    Lost(u32),
}

impl Default for Fate {
    ghost use Rattle.std.specs.Prelude.{◌≡◌};

    /// A process that goes on.
    fn default() -> Self
        ensures { result ≡ Fate.Goes }
    {
        Fate::Goes
    }
}
