//! The children of a process: which of those that have ended it takes, and whether one goes on.
ghost use Rattle.std.specs.Prelude.{◌≡◌};
ghost use Rattle.process_table.specs.Children.{child_slot, is_first_child};
ghost use Rattle.process_table.specs.Slots.{has_such, is_live_child};

use crate::slots::{Sought, has_such};
use record_layouts::{ProcRec, RecordView, SLOTS};

// The record is that of a child of this parent that has ended, and none with a lesser pid has.
fn is_first_child<V: RecordView>(view: &V, parent: u32, process: &ProcRec) -> bool
    ensures { result ≡ is_first_child (V.records view.now) parent (Some process.now) }
{
    let earlier = Sought::EarlierChild {
        parent,
        pid: process.pid,
    };
    process.has_ended() && process.parent == parent && !has_such(view, earlier)
}

/// The slot of the child of a parent that has ended and was not waited for, the one with the least pid. `None` comes
/// exactly where no child has ended.
#[tactic(auto, unfolding(crate::specs::Children::child_slot))]
pub fn ended_child<V: RecordView>(view: &V, parent: u32) -> Option<u32>
    ensures { result ≡ child_slot (V.records view.now) parent }
{
    for slot in 0..SLOTS {
        if let Some(process) = view.proc(slot) {
            if is_first_child(view, parent, &process) {
                return Some(slot);
            }
        }
    }
    None
}

/// A child of the parent goes on.
pub fn has_live_child<V: RecordView>(view: &V, parent: u32) -> bool
    ensures { result ≡ has_such (V.records view.now) (is_live_child parent) }
{
    has_such(view, Sought::LiveChild(parent))
}
