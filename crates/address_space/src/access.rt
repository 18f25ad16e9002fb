//! What a process does with an address.

/// It reads there, or it writes.
#[derive(Clone, Copy)]
pub(crate) enum Access {
    Read,
    Write,
}
