//! The calls that make a child and that take one which has ended.

ghost use Rattle.std.specs.Prelude.{◌≡◌, ◌≤◌};
ghost use Rattle.record_layouts.specs.Unix.Spaces.{takes_word};
ghost use Rattle.frame_table.specs.Maps.{framed_pages};
ghost use Rattle.record_layouts.specs.Patch.{IsPatch};
ghost use Rattle.syscalls.specs.Planned.{pages_in, planned_fork, planned_wait, waiting_items};
ghost use Rattle.syscalls.specs.Serving.{IsCallerIn, IsDoable, plan_of};

use crate::caller::Caller;
use crate::calls::{EFAULT, ENOMEM};
use crate::service::Service;
use address_space::{can_write, pages};
use frame_table::free_frames;
use ow_base::Errno;
use process_table::{ended_child, fork_process, free_slot, has_live_child, take_child};
use record_layouts::{PIDS_END, Patch, RecordView};

// The errors: no slot or no pid for a child, and no child.
const EAGAIN: Errno = Errno(11);

const ECHILD: Errno = Errno(10);

// The bytes of a word.
const WORD: u32 = 4;

// The call fork: the pages of the process are copied for a child in a slot that can be taken.
#[tactic(auto, unfolding(crate::specs::Planned::planned_fork))]
pub(crate) fn fork<V: RecordView>(view: &V, caller: &Caller, user_frames: u32) -> Service
    requires caller { IsCallerIn (V.records view.now) caller.now }
    requires frames { user_frames ≡ (V.records view.now).map.user_frames }
    requires few { user_frames ≤ 384 }
    ensures plan { plan_of result ≡ planned_fork (V.records view.now) caller.now }
    ensures doable { IsDoable (V.records view.now) (V.words view.now) caller.now.slot result }
{
    let (Some(child), Some(signals)) = (free_slot(view), view.sig(caller.slot)) else {
        return Service::Once {
            patch: caller.fails(EAGAIN),
        };
    };
    if caller.head.next >= PIDS_END {
        return Service::Once {
            patch: caller.fails(EAGAIN),
        };
    }
    if pages(&caller.process) > free_frames(view, user_frames) {
        return Service::Once {
            patch: caller.fails(ENOMEM),
        };
    }
    Service::Fork {
        child,
        patch: fork_process(
            &caller.head,
            caller.slot,
            child,
            &caller.process,
            &signals,
            caller.trap,
        ),
    }
}

// A word of the process in the slot can be stored at this address.
fn takes_word<V: RecordView>(view: &V, caller: &Caller, addr: u32) -> bool
    requires caller { IsCallerIn (V.records view.now) caller.now }
    ensures framed { result ≡ takes_word (framed_pages (V.records view.now) (V.words view.now) caller.now.slot) addr }
    ensures process { result ≡ takes_word (pages_in (V.records view.now) (V.words view.now) caller.now.slot) addr }
{
    addr % WORD == 0 && can_write(view, caller.slot, addr, WORD).is_ok()
}

// The call wait where no child has ended: it blocks while one goes on.
fn wait_on<V: RecordView>(view: &V, caller: &Caller) -> Patch
    requires caller { IsCallerIn (V.records view.now) caller.now }
    ensures items { result.items.items ≡ waiting_items (V.records view.now) caller.now }
    ensures patch { IsPatch result.items.items }
{
    if has_live_child(view, caller.process.pid) {
        caller.waits()
    } else {
        caller.fails(ECHILD)
    }
}

// The call wait, and each further piece of it: the child that has ended is taken, or the process waits.
#[tactic(auto, unfolding(crate::specs::Planned::planned_wait))]
pub(crate) fn wait<V: RecordView>(view: &V, caller: &Caller) -> Service
    requires caller { IsCallerIn (V.records view.now) caller.now }
    ensures plan { plan_of result ≡ planned_wait (V.records view.now) (pages_in (V.records view.now) (V.words view.now) caller.now.slot) caller.now }
    ensures doable { IsDoable (V.records view.now) (V.words view.now) caller.now.slot result }
{
    let Some(place) = ended_child(view, caller.process.pid) else {
        return Service::Once {
            patch: wait_on(view, caller),
        };
    };
    let child = view.proc(place).unwrap();
    let addr = caller.argument(0);
    if addr != 0 && !takes_word(view, caller, addr) {
        return Service::Once {
            patch: caller.fails(EFAULT),
        };
    }
    let patch = take_child(
        &caller.head,
        caller.slot,
        &caller.process,
        place,
        child.pid,
        caller.trap,
    );
    if addr == 0 {
        Service::Once { patch }
    } else {
        Service::PutStatus {
            addr,
            status: child.status,
            patch,
        }
    }
}
