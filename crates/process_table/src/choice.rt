//! Which process is next, and what is done with it.
ghost use Rattle.std.specs.Prelude.{◌≡◌, ◌<◌, ◌≤◌, ◌⊎◌, IfSome, IfNone, Some, true, false};
ghost use Rattle.record_layouts.specs.Pages.{is_live};
ghost use Rattle.record_layouts.specs.Proc.{FitsProc};
ghost use Rattle.record_layouts.specs.Desc.{FitsDesc};
ghost use Rattle.process_table.specs.Choosing.{IsChoice, IsNext, IsNone, IsReadyAs, IsWorkOf};
ghost use Rattle.process_table.specs.Choosing.{call_goes_on, description_in, is_ready, is_runnable_in, last_pid, read_by, tty_goes_on, wait_goes_on};

use crate::signals::signal_of;
use crate::slots::{Sought, has_such};
use ow_base::Now;
use record_layouts::{DescRec, ProcRec, RecordView, SLOTS};

// The numbers of the calls that a process can be in: write, read and wait.
const WRITE: u32 = 2;

const READ: u32 = 3;

const WAIT: u32 = 10;

/// What a kernel does next. The numbers are slots.
#[derive(Clone, Copy, Debug, PartialEq, Eq)]
pub enum Choice {
    /// The process runs its instructions.
    User(u32),
    /// The process goes on in its call.
    Piece(u32),
    /// A signal goes to the process.
    Signal(u32),
    /// Processes are live, and each waits.
    Idle,
    /// No process is live.
    AllEnded,
}

// A read of the terminal can go on: the next typed byte has arrived, or all have.
fn tty_goes_on<V: RecordView>(view: &V, now: &Now, tty: u32) -> bool
    requires { tty < 2 }
    ensures { result ≡ tty_goes_on now.now tty ((V.records view.now).terms tty) }
{
    let arrived = now.arrived[tty as usize];
    match view.term(tty) {
        Some(terminal) => terminal.consumed < arrived || arrived == now.typed[tty as usize],
        None => false,
    }
}

// The description that a process in a read or write has in a0.
#[tactic(auto, unfolding(crate::specs::Choosing::description_in))]
fn description_in<V: RecordView>(view: &V, process: &ProcRec) -> Option<DescRec>
    requires fits { FitsProc process.now }
    requires live { is_live process.now ≡ true }
    ensures same { result ≡ description_in (V.records view.now) process.now }
    ensures fits { IfSome result FitsDesc }
{
    let descriptor = process.regs.get(10) as usize;
    match process.descs.get(descriptor).copied().unwrap_or(0) {
        0 => None,
        word => view.desc(word - 1),
    }
}

// A read through the description can go on.
fn read_goes_on<V: RecordView>(view: &V, now: &Now, process: &ProcRec) -> bool
    requires fits { FitsProc process.now }
    requires live { is_live process.now ≡ true }
    ensures { result ≡ read_by (V.records view.now) now.now (description_in (V.records view.now) process.now) }
{
    match description_in(view, process) {
        Some(description) if description.is_on_terminal() => tty_goes_on(
            view,
            now,
            description.index,
        ),
        Some(description) => description.is_on_file(),
        None => false,
    }
}

// A wait of this pid can go on: a child has ended, or there is none.
#[tactic(auto, unfolding(crate::specs::Choosing::wait_goes_on))]
fn wait_goes_on<V: RecordView>(view: &V, pid: u32) -> bool
    ensures { result ≡ wait_goes_on (V.records view.now) pid }
{
    has_such(view, Sought::EndedChild(pid)) || !has_such(view, Sought::LiveChild(pid))
}

// The call in progress can go on.
#[tactic(auto, unfolding(crate::specs::Choosing::call_goes_on))]
fn call_goes_on<V: RecordView>(view: &V, now: &Now, process: &ProcRec) -> bool
    requires fits { FitsProc process.now }
    requires live { is_live process.now ≡ true }
    ensures { result ≡ call_goes_on (V.records view.now) now.now process.now }
{
    match process.call {
        WRITE => true,
        READ => read_goes_on(view, now, process),
        WAIT => wait_goes_on(view, process.pid),
        _ => false,
    }
}

// The live process of a slot can run.
fn is_runnable<V: RecordView>(view: &V, now: &Now, slot: u32, process: &ProcRec) -> bool
    requires slot { slot < 16 }
    requires fits { FitsProc process.now }
    requires live { is_live process.now ≡ true }
    ensures { result ≡ is_runnable_in (V.records view.now) now.now slot process.now }
{
    signal_of(view, slot, process).is_some()
        || process.is_outside()
        || call_goes_on(view, now, process)
}

// The process of the slot where it is live, can run and has a pid above this one.
#[tactic(auto, unfolding(crate::specs::Choosing::is_ready))]
fn ready_in<V: RecordView>(view: &V, now: &Now, above: u32, slot: u32) -> Option<ProcRec>
    requires { slot < 16 }
    ensures ready { IfSome result (IsReadyAs (V.records view.now) now.now above slot) }
    ensures none { IfNone result (is_ready (V.records view.now) now.now above slot ≡ false) }
{
    let process = view.live_proc(slot)?;
    let ready = process.pid > above && is_runnable(view, now, slot, &process);
    if ready { Some(process) } else { None }
}

// A process that can run, by its pid and its slot.
#[derive(Clone, Copy, Debug, PartialEq, Eq)]
struct Ready {
    pid: u32,
    slot: u32,
}

// Of the processes that can run, the one with the least pid above some pid, and the one with the least of all.
#[derive(Clone, Copy, Debug, PartialEq, Eq)]
struct Nexts {
    above: Option<Ready>,
    least: Option<Ready>,
}

// The one with the lesser pid.
fn lesser(held: Option<Ready>, one: Ready) -> Ready
    ensures one_of { (result ≡ one) ⊎ (held ≡ Some result) }
    ensures least { result.pid ≤ one.pid }
    ensures no_more { IfSome held (λ other. result.pid ≤ other.pid) }
{
    match held {
        Some(other) if other.pid <= one.pid => other,
        _ => one,
    }
}

// Which processes can be next after that of the pid `last`.
fn next_ones<V: RecordView>(view: &V, now: &Now, last: u32) -> Nexts
    ensures above { IfSome result.above (λ next. IsNext (V.records view.now) now.now last next.slot) }
    ensures none_above { IfNone result.above (IsNone (V.records view.now) now.now last) }
    ensures least { IfSome result.least (λ next. IsNext (V.records view.now) now.now 0 next.slot) }
    ensures none { IfNone result.least (IsNone (V.records view.now) now.now 0) }
{
    let mut nexts = Nexts {
        above: None,
        least: None,
    };
    for slot in 0..SLOTS {
        let Some(process) = ready_in(view, now, 0, slot) else {
            continue;
        };
        let one = Ready {
            pid: process.pid,
            slot,
        };
        nexts.least = Some(lesser(nexts.least, one));
        if process.pid > last {
            nexts.above = Some(lesser(nexts.above, one));
        }
    }
    nexts
}

// What is done with the chosen process of a slot.
fn work_of<V: RecordView>(view: &V, slot: u32) -> Choice
    requires { slot < 16 }
    ensures { IsWorkOf (V.records view.now) slot result }
{
    let Some(process) = view.proc(slot) else {
        return Choice::Idle;
    };
    match signal_of(view, slot, &process) {
        Some(_) => Choice::Signal(slot),
        None if process.is_in_call() => Choice::Piece(slot),
        None => Choice::User(slot),
    }
}

// The pid that had the last trap or slice.
fn last_pid<V: RecordView>(view: &V) -> u32
    ensures { result ≡ last_pid (V.records view.now).head }
{
    match view.head() {
        Some(head) => head.last,
        None => 0,
    }
}

/// What the kernel does next, at the moment `now`: the process that can run with the least pid above the last one that
/// had a trap or a slice is the next one, else the one with the least pid. A process can run where a signal goes to
/// it, it is outside a call, or its call can go on: a write always, a read of a terminal where the next typed byte has
/// arrived or all have, and a wait where a child has ended or there is none.
pub fn choose<V: RecordView>(view: &V, now: &Now) -> Choice
    ensures { IsChoice (V.records view.now) now.now result }
{
    let nexts = next_ones(view, now, last_pid(view));
    if let Some(next) = nexts.above {
        return work_of(view, next.slot);
    }
    match nexts.least {
        Some(next) => work_of(view, next.slot),
        None if has_such(view, Sought::Live) => Choice::Idle,
        None => Choice::AllEnded,
    }
}
