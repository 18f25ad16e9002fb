//! What a panic makes of the call in which it found a process, and how a process enters its crash procedure.
ghost use Rattle.std.specs.Prelude.{◌≡◌, ◌<◌, true};
ghost use Rattle.record_layouts.specs.Pages.{is_live};
ghost use Rattle.record_layouts.specs.Proc.{FitsProc};
ghost use Rattle.resurrector.specs.Procedures.{HasFewBits, aborted_call, bits_told, brought_out, context_saved, fate_by_call, fate_with, in_procedure, is_in_procedure, mask_told, revived};

use ow_base::Bank;
use record_layouts::{DeadProc, Fate, ProcRec};

// The answer of a call that a panic broke off: minus ECRASH, which is 200.
const BROKEN_OFF: u32 = 0u32.wrapping_sub(200);

// The register of a call's answer, a0, which is also that of a procedure's argument.
const ANSWER: u32 = 10;

// The state of a process outside a call.
const OUTSIDE: u32 = 1;

// The flag of a crash procedure that runs.
const IN_PROCEDURE: u32 = 2;

// The bit of a call that was aborted.
const ABORTED: u32 = 16;

// The process has made its call, which is answered.
fn aborted_call(process: &ProcRec) -> ProcRec
    ensures { result ≡ aborted_call process.now }
{
    let mut answered = *process;
    answered.regs.set(ANSWER, BROKEN_OFF);
    answered.pc = process.pc.wrapping_add(4);
    answered
}

// The process outside a call: one that is made again is not begun yet.
#[tactic(auto, unfolding(crate::specs::Procedures::brought_out))]
fn brought_out(p: &DeadProc) -> ProcRec
    ensures { result ≡ brought_out p.now }
{
    let mut outside = p.rec;
    outside.state = OUTSIDE;
    outside.call = 0;
    outside.done = 0;
    if p.aborted {
        aborted_call(&outside)
    } else {
        outside
    }
}

// Its crash procedure runs.
fn is_in_procedure(process: &ProcRec) -> bool
    ensures { result ≡ is_in_procedure process.now }
{
    process.flags / IN_PROCEDURE == 1
}

// What its crash procedure is told.
#[tactic(auto, unfolding(crate::specs::Procedures::mask_told))]
fn mask_told(p: &DeadProc, lost: u32) -> u32
    requires { lost < 16 }
    ensures { result ≡ mask_told p.now lost }
{
    let bits = if p.aborted { lost + ABORTED } else { lost };
    if is_in_procedure(&p.rec) {
        p.rec.mask | bits
    } else {
        bits
    }
}

// The context to which its crash procedure returns.
fn context_saved(process: &ProcRec) -> Bank
    ensures { result ≡ context_saved process.now }
{
    if is_in_procedure(process) {
        process.crash_save
    } else {
        Bank {
            pc: process.pc,
            regs: process.regs,
        }
    }
}

// The process enters its crash procedure, which is told this mask.
fn in_procedure(mask: u32, process: &ProcRec) -> ProcRec
    ensures { result ≡ in_procedure mask process.now }
{
    let mut entered = *process;
    entered.crash_save = context_saved(process);
    entered.regs.set(ANSWER, mask);
    entered.pc = process.procedure;
    entered.mask = mask;
    entered.flags = process.flags % IN_PROCEDURE + IN_PROCEDURE;
    entered
}

// The record with which a process goes on.
#[tactic(auto, unfolding(crate::specs::Procedures::revived))]
fn revived(p: &DeadProc, lost: u32) -> ProcRec
    requires { lost < 16 }
    ensures { result ≡ revived p.now lost }
{
    let outside = brought_out(p);
    if p.rec.procedure == 0 {
        outside
    } else {
        in_procedure(mask_told(p, lost), &outside)
    }
}

// Its fate by its call alone.
fn fate_by_call(p: &DeadProc) -> Fate
    ensures { result ≡ fate_by_call p.now }
{
    if p.aborted {
        Fate::Aborted
    } else if p.stands {
        Fate::Stands
    } else {
        Fate::Goes
    }
}

// Its fate.
#[tactic(auto, unfolding(crate::specs::Procedures::fate_with))]
fn fate_with(p: &DeadProc, lost: u32) -> Fate
    requires { lost < 16 }
    ensures is { result ≡ fate_with p.now lost }
    ensures few { HasFewBits result }
{
    if p.rec.procedure != 0 {
        Fate::Procedure(mask_told(p, lost))
    } else if lost != 0 {
        Fate::Lost(lost)
    } else {
        fate_by_call(p)
    }
}

/// The record with which a process goes on that a panic left, and its fate. `mask` has the bits of what it lost, all of
/// them below 16.
///
/// A call that it was in is answered minus 200, or made again. Where it has a crash procedure it enters that, with all it
/// lost and 16 for an aborted call as the mask; without one it is lost where it lost anything, and its record counts for
/// nothing.
pub fn revive(p: &DeadProc, mask: u32) -> (ProcRec, Fate)
    requires mask { mask < 16 }
    requires fits { FitsProc p.now.rec }
    requires live { is_live p.now.rec ≡ true }
    ensures record { result.0 ≡ revived p.now mask }
    ensures fits { FitsProc result.0 }
    ensures live { is_live result.0 ≡ true }
    ensures fate { result.1 ≡ fate_with p.now mask }
    ensures few { HasFewBits result.1 }
{
    (revived(p, mask), fate_with(p, mask))
}
