//! Which user frames are free: those in which no page of a live process lies. User frames are counted from the first.

ghost use Rattle.std.specs.Prelude.{◌≡◌, ◌<◌, ◌≤◌, nat_lt, is_some, IfNone, IfSome};
ghost use Rattle.record_layouts.specs.Least.{IsLeast, NonePasses};
ghost use Rattle.frame_table.specs.Free.{IsNthFree, free_before, in_memory, is_free_frame, nth_free};

use crate::frames::page_frame;
use record_layouts::RecordView;

// What one slot more counts in an owner word: the pages that it can name.
const SLOT_UNIT: u32 = 0x10_0000;

// The slots of processes.
const SLOTS: u32 = 16;

// No page of a live process lies in the user frame. Only the page that the frame's owner word names can.
#[tactic(auto, using(crate::proofs::Free::free_unclaimed, crate::proofs::Free::free_behind))]
fn is_free_frame<V: RecordView>(view: &V, number: u32) -> bool
    requires { number < 384 }
    ensures { result ≡ is_free_frame (V.records view.now) number }
{
    let claim = view.owner(number);
    let first = claim / SLOT_UNIT;
    if first == 0 || first > SLOTS {
        return true;
    }
    match page_frame(view, first - 1, claim % SLOT_UNIT) {
        Some(frame) => frame != view.pool_base() + number,
        None => true,
    }
}

/// How many of the first user frames, `user_frames` many, are free: no page of a live process lies in them, whatever
/// their owner words are.
#[tactic(auto, using(crate::proofs::Free::before_zero, crate::proofs::Free::counted_on))]
pub fn free_frames<V: RecordView>(view: &V, user_frames: u32) -> u32
    requires { user_frames ≤ 384 }
    ensures { result ≡ free_before (V.records view.now) user_frames }
{
    let mut free = 0;
    for number in 0..user_frames {
        if is_free_frame(view, number) {
            free += 1;
        }
    }
    free
}

/// The least free user frame from one on, both counted from the first user frame. `None` exactly where none of these is
/// free. Who takes frames one after the other goes on behind the last one, and so goes over the owner words once.
pub fn next_free<V: RecordView>(view: &V, user_frames: u32, from: u32) -> Option<u32>
    requires { user_frames ≤ 384 }
    ensures found { IfSome result (IsLeast (is_free_frame (V.records view.now)) from user_frames) }
    ensures none { IfNone result (NonePasses (is_free_frame (V.records view.now)) from user_frames) }
{
    for number in from..user_frames {
        if is_free_frame(view, number) {
            return Some(number);
        }
    }
    None
}

// The free user frame before which `i` are free.
#[tactic(auto, using(crate::proofs::Free::first_is, crate::proofs::Free::next_is, crate::proofs::Free::none_first, crate::proofs::Free::none_next))]
fn nth_number<V: RecordView>(view: &V, user_frames: u32, i: u32) -> Option<u32>
    requires { user_frames ≤ 384 }
    ensures found { IfSome result (IsNthFree (V.records view.now) user_frames i) }
    ensures none { IfNone result (free_before (V.records view.now) user_frames ≤ i) }
{
    let mut number = next_free(view, user_frames, 0)?;
    for _before in 0..i {
        number = next_free(view, user_frames, number + 1)?;
    }
    Some(number)
}

/// The frame of memory of the free user frame before which `i` are free. `None` exactly where not more than `i` are free.
#[tactic(auto, using(crate::proofs::Free::nth_value, crate::proofs::Free::nth_more, crate::proofs::Free::nth_no_value, crate::proofs::Free::nth_no_more))]
pub fn nth_free<V: RecordView>(view: &V, user_frames: u32, i: u32) -> Option<u32>
    requires { user_frames ≤ 384 }
    ensures value { result ≡ in_memory (V.records view.now) (nth_free (V.records view.now) user_frames i) }
    ensures found { is_some result ≡ nat_lt i (free_before (V.records view.now) user_frames) }
{
    let number = nth_number(view, user_frames, i)?;
    Some(view.pool_base() + number)
}
