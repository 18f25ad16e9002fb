//! What a plant refuses.

/// What was refused first: while it stands all is refused.
#[derive(Clone, Copy, Debug, PartialEq, Eq)]
pub enum Refusal {
    /// A store: a word of memory, or a byte on a terminal.
    Store,
    /// The end of the kernel's work for a trap.
    Leave,
}
