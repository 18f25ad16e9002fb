//! A process as a panic left it.

use crate::proc::ProcRec;
use crate::sig::SigRec;

/// A process as a panic left it, in a slot.
#[derive(Clone, Copy, Debug, PartialEq, Eq)]
pub struct DeadProc {
    pub slot: u32,
    /// Its record, with the registers and the pc that the panic left.
    pub rec: ProcRec,
    /// Its signals, if their record can be read.
    pub sig: Option<SigRec>,
    /// The panic found it in a call that is answered as aborted.
    pub aborted: bool,
    /// The panic found it in a call that is made again.
    pub stands: bool,
}
