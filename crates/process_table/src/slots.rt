//! What the slots hold, and where a new process can go.
ghost use Rattle.std.specs.Prelude.{◌≡◌, ◌<◌, ◌≤◌, IfSome, IfNone, Some};
ghost use Rattle.record_layouts.specs.Decode.{next_by};
ghost use Rattle.process_table.specs.Slots.{IsFull, IsLeastFree, has_such, is_free, is_live_pid, is_sought};

use record_layouts::{PIDS_END, ProcRec, RecordView, SLOTS};

// The states of a free slot, of a process outside a call and of one that has ended.
pub(crate) const FREE: u32 = 0;

pub(crate) const OUTSIDE: u32 = 1;

pub(crate) const ENDED: u32 = 3;

/// What a process is looked for by.
#[derive(Clone, Copy, Debug, PartialEq, Eq)]
pub(crate) enum Sought {
    /// It goes on.
    Live,
    /// It goes on and is a child of this pid.
    LiveChild(u32),
    /// It has ended, is a child of this pid and was not waited for.
    EndedChild(u32),
    /// The same, and its own pid is below one.
    EarlierChild { parent: u32, pid: u32 },
}

impl Sought {
    fn is(self, process: &ProcRec) -> bool
        ensures { result ≡ is_sought self (Some process.now) }
    {
        match self {
            Sought::Live => process.is_live(),
            Sought::LiveChild(parent) => process.is_live() && process.parent == parent,
            Sought::EndedChild(parent) => process.has_ended() && process.parent == parent,
            Sought::EarlierChild { parent, pid } => {
                process.has_ended() && process.parent == parent && process.pid < pid
            }
        }
    }
}

/// A slot holds such a process.
pub(crate) fn has_such<V: RecordView>(view: &V, sought: Sought) -> bool
    ensures { result ≡ has_such (V.records view.now) (is_sought sought) }
{
    for slot in 0..SLOTS {
        if let Some(process) = view.proc(slot) {
            if sought.is(&process) {
                return true;
            }
        }
    }
    false
}

// The pid is that of a live process. It is 0 or that of an exit record.
fn is_live_pid<V: RecordView>(view: &V, pid: u32) -> bool
    requires { pid ≤ 256 }
    ensures { result ≡ is_live_pid (V.records view.now) pid }
{
    pid != 0 && view.exit(pid).is_some_and(|exit| exit.is_live())
}

// The slot of this record can be taken.
fn is_free<V: RecordView>(view: &V, process: &ProcRec) -> bool
    requires { process.now.parent ≤ 256 }
    ensures { result ≡ is_free (V.records view.now) (Some process.now) }
{
    process.state == FREE || process.has_ended() && !is_live_pid(view, process.parent)
}

/// The least slot that a new process can take: it is free, or its process has ended and the parent is not live, so
/// that none waits for it. `None` comes exactly where there is no such slot.
pub fn free_slot<V: RecordView>(view: &V) -> Option<u32>
    ensures found { IfSome result (IsLeastFree (V.records view.now)) }
    ensures none { IfNone result (IsFull (V.records view.now)) }
{
    for slot in 0..SLOTS {
        if let Some(process) = view.proc(slot) {
            if is_free(view, &process) {
                return Some(slot);
            }
        }
    }
    None
}

/// The pid that a new process gets. `None` comes exactly where all 256 have been given away. The head decodes.
pub fn next_pid<V: RecordView>(view: &V) -> Option<u32>
    ensures found { IfSome result (λ pid. (pid ≡ next_by (V.records view.now).head) × (pid ≤ 256)) }
    ensures none { IfNone result (256 < next_by (V.records view.now).head) }
{
    let next = match view.head() {
        Some(head) => head.next,
        None => 1,
    };
    if next < PIDS_END { Some(next) } else { None }
}
