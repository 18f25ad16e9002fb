//! What the panic left of a process.
ghost use Rattle.std.specs.Prelude.{◌≡◌, ◌<◌};
ghost use Rattle.record_layouts.specs.Left.{call_found, dead_proc, is_from_program, is_undone, left_rec};
ghost use Rattle.record_layouts.specs.Unix.Abort.{is_made_again};
ghost use Rattle.dead_reader.specs.Left.{handed_of, told_by};

use ow_base::Came;
use ow_plant::HandOver;
use record_layouts::{DeadProc, HeadRec, ProcRec, RecordView};

// The register of a call's number, a7.
const NUMBER: u32 = 17;

// The calls that are made again: exit, sigreturn, crashreturn and yield.
const EXIT: u32 = 1;

const SIGRETURN: u32 = 14;

const CRASHRETURN: u32 = 16;

const YIELD: u32 = 18;

// The trap that broke was not done: it is not the one that the head has as served.
fn is_undone(handed: &HandOver, head: Option<HeadRec>) -> bool
    ensures { result ≡ is_undone (told_by handed.now) head }
{
    match head {
        Some(head) => head.served != handed.trap,
        None => true,
    }
}

// The processor came from a program, so that it had registers of it.
fn is_from_program(came: Came) -> bool
    ensures { result ≡ is_from_program came }
{
    match came {
        Came::Kernel => false,
        Came::User | Came::Call | Came::Closing => true,
    }
}

fn is_made_again(number: u32) -> bool
    ensures { result ≡ is_made_again number }
{
    matches!(number, EXIT | SIGRETURN | CRASHRETURN | YIELD)
}

// The record of a process, with the registers and the pc that were handed over where its trap was not done.
#[tactic(auto, unfolding(record_layouts::specs::Left::left_rec))]
fn left_rec(handed: &Option<HandOver>, head: Option<HeadRec>, process: &ProcRec) -> ProcRec
    ensures { result ≡ left_rec (handed_of handed.now) head process.now }
{
    let mut rec = *process;
    if let Some(handed) = handed {
        let is_of_it = handed.pid == process.pid && is_from_program(handed.came);
        if is_of_it && is_undone(handed, head) {
            rec.regs = handed.bank.regs;
            rec.pc = handed.bank.pc;
        }
    }
    rec
}

// The call in which the panic found a process: the one in progress, or the one that it entered in the trap that broke.
#[tactic(auto, unfolding(record_layouts::specs::Left::call_found, record_layouts::specs::Left::left_rec))]
fn call_found(handed: &Option<HandOver>, head: Option<HeadRec>, process: &ProcRec) -> Option<u32>
    ensures { result ≡ call_found (handed_of handed.now) head process.now }
{
    if process.is_in_call() {
        return Some(process.call);
    }
    match handed {
        Some(handed)
            if handed.pid == process.pid && handed.came == Came::Call && is_undone(handed, head) =>
            Some(handed.bank.regs.get(NUMBER)),
        _ => None,
    }
}

/// What the panic left of the process in a slot that has this record.
#[tactic(auto, unfolding(record_layouts::specs::Left::dead_proc))]
pub(crate) fn dead_process<V: RecordView>(
    view: &V,
    handed: &Option<HandOver>,
    slot: u32,
    process: &ProcRec,
) -> DeadProc
    requires { slot < 16 }
    ensures { result ≡ dead_proc (V.records view.now) (handed_of handed.now) slot process.now }
{
    let head = view.head();
    let rec = left_rec(handed, head, process);
    let call = call_found(handed, head, process);
    DeadProc {
        slot,
        rec,
        sig: view.sig(slot),
        aborted: call.is_some_and(|number| !is_made_again(number)),
        stands: call.is_some_and(is_made_again),
    }
}
