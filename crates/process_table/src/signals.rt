//! Which signal goes next to a process.
ghost use Rattle.std.specs.Prelude.{◌≡◌, ◌<◌, ◌≤◌, IfSome, IfNone, Some, true, false};
ghost use Rattle.record_layouts.specs.Decode.{is_pending};
ghost use Rattle.record_layouts.specs.Sig.{FitsSig};
ghost use Rattle.process_table.specs.Choosing.{next_signal, signal_by};
ghost use Rattle.process_table.specs.Patches.{without_signal};
ghost use Rattle.process_table.specs.Least.{IsLeast, NonePasses};

use record_layouts::{ProcRec, RecordView, SigRec};

// The signal that no handler holds back.
const KILL: u32 = 9;

// Past the greatest signal.
const SIGNALS_END: u32 = 16;

// Signal 1 to 15 is pending.
#[tactic(auto, using(std::proofs::lemmas::Nat::Bits::shr_and_one))]
fn is_pending(signals: &SigRec, signal: u32) -> bool
    requires { signal < 32 }
    ensures { result ≡ is_pending (Some signals.now) signal }
{
    signals.pending >> signal & 1 == 1
}

// The least signal that is pending.
fn least_pending(signals: &SigRec) -> Option<u32>
    ensures found { IfSome result (IsLeast (is_pending (Some signals.now)) 1 16) }
    ensures none { IfNone result (NonePasses (is_pending (Some signals.now)) 1 16) }
{
    for signal in 1..SIGNALS_END {
        if is_pending(signals, signal) {
            return Some(signal);
        }
    }
    None
}

/// The signal, 1 to 15, that goes next to the process: 9 before all others, which wait while a handler runs, then the
/// least.
#[tactic(auto, unfolding(crate::specs::Choosing::next_signal))]
pub(crate) fn next_signal(process: &ProcRec, signals: &SigRec) -> Option<u32>
    ensures same { result ≡ next_signal process.now signals.now }
    ensures range { IfSome result (λ signal. (1 ≤ signal) × (signal < 16)) }
{
    if is_pending(signals, KILL) {
        Some(KILL)
    } else if process.flags % 2 == 1 {
        None
    } else {
        least_pending(signals)
    }
}

/// The signal that goes next to the process of a slot, by its record of signals.
pub fn signal_of<V: RecordView>(view: &V, slot: u32, process: &ProcRec) -> Option<u32>
    requires { slot < 16 }
    ensures { result ≡ signal_by process.now ((V.records view.now).sigs slot) }
{
    let signals = view.sig(slot)?;
    next_signal(process, &signals)
}

/// The record of signals in which this one, 1 to 15, is not pending.
pub(crate) fn without_signal(signals: &SigRec, signal: u32) -> SigRec
    requires signal { signal < 16 }
    requires fits { FitsSig signals.now }
    ensures same { result ≡ without_signal signals.now signal }
    ensures fits { FitsSig result }
{
    SigRec {
        pending: signals.pending & !(1 << signal),
        ..*signals
    }
}
