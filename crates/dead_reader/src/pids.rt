//! The pids that are live in the slots, which one pass over the exit records finds.
ghost use Rattle.std.specs.Prelude.{◌≡◌, ℕ, ◌<◌, ◌≤◌, Some, IfSome, slice_get};
ghost use Rattle.record_layouts.specs.Decode.{pid_in, slot_by};

use record_layouts::RecordView;

// The last pid. The first one is 1.
const LAST_PID: u32 = 256;

// The slot in which the exit record of a pid has it as live.
fn slot_of<V: RecordView>(view: &V, pid: u32) -> Option<u32>
    requires some { 1 ≤ pid }
    requires pid { pid ≤ 256 }
    ensures slot { result ≡ slot_by ((V.records view.now).exits pid) }
    ensures low { IfSome result (λ slot. slot < 16) }
{
    match view.exit(pid) {
        Some(exit) if exit.is_live() => Some(exit.value),
        _ => None,
    }
}

/// The pid that is live in each slot, the least where there are several. Each exit record is read once, the last one
/// first, so that of several pids in a slot the least is noted last.
pub(crate) fn pids_in_slots<V: RecordView>(view: &V) -> [Option<u32>; 16]
    ensures { (slot : ℕ) → slot < 16 → slice_get result slot ≡ Some (pid_in (V.records view.now) slot) }
{
    let mut pids = [None; 16];
    for behind in 0..LAST_PID {
        let pid = LAST_PID - behind;
        if let Some(slot) = slot_of(view, pid) {
            pids[slot as usize] = Some(pid);
        }
    }
    pids
}
