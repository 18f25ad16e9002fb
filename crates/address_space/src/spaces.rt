//! Pages that are prepared for a process before a record counts them: those that its heap grows by, and those of a child.

ghost use Rattle.std.specs.Prelude.{◌≡◌, ℕ, ◌+◌, ◌-◌, ◌<◌, ◌≤◌, true, false, Some, None, is_some, IfOk, IfSome, OnErr, OnOk};
ghost use Rattle.record_layouts.specs.Held.{StaysUnstored, held_by};
ghost use Rattle.record_layouts.specs.Pages.{is_live, live_one, region_of};
ghost use Rattle.record_layouts.specs.Proc.{FitsProc};
ghost use Rattle.frame_table.specs.Free.{free_before};
ghost use Rattle.address_space.specs.Copying.{IsRangeCopied, IsRangePartlyCopied};
ghost use Rattle.address_space.specs.Spaces.{CanCopy, CanGrow, IsCopied, IsGrown, IsPartlyCopied, IsPartlyGrown, OnlyPrepares, heap_end};

use crate::preparing::{clear_tables, prepare_page};
use frame_table::{frame_of_page, next_free, pages, region};
use ow_base::{Panicked, Rights};
use record_layouts::{CODE_PAGE, ProcRec, RecordView, STACK_PAGE, STACK_PAGES, Writer};

/// Prepares so many pages of zeros behind the heap of the live process in a slot. No record counts them yet: the pages of
/// each live process are what they were, at every answer.
///
/// So many user frames are free, and the pages end at or below 0x00400000. Each page costs the stores of its 1,024 words,
/// of its owner word and of its table word, in this order. At `Panicked` the first pages are prepared, fewer than all.
pub fn grow<W: Writer>(live: &mut W, slot: u32, count: u32) -> Result<(), Panicked>
    requires able { W.refused live.old ≡ false }
    requires stands { W.Stands live.old }
    requires slot { slot < 16 }
    requires can { IfSome (live_one ((W.records live.old).procs slot)) (CanGrow (W.records live.old) slot count) }
    requires goes { is_some (live_one ((W.records live.old).procs slot)) ≡ true }
    ensures ok { OnOk result (IfSome ((W.records live.old).procs slot)
        (IsGrown (held_by W.records W.words W.disk W.rest live.old) (held_by W.records W.words W.disk W.rest live.new) slot count)) }
    ensures err { OnErr result (IfSome ((W.records live.old).procs slot)
        (IsPartlyGrown (held_by W.records W.words W.disk W.rest live.old) (held_by W.records W.words W.disk W.rest live.new) slot count)) }
    ensures prepares { OnlyPrepares slot (held_by W.records W.words W.disk W.rest live.old) (held_by W.records W.words W.disk W.rest live.new) }
    ensures stays { OnOk result (W.refused live.new ≡ false) }
    ensures cause { OnErr result (W.refused live.new ≡ true) }
    ensures unstored { StaysUnstored (W.made live.old) (W.made live.new)
        (held_by W.records W.words W.disk W.rest live.old) (held_by W.records W.words W.disk W.rest live.new) }
    ensures allowed { OnErr result (W.may_refuse (W.rest live.old) ≡ true) }
    ensures still_stands { W.Stands live.new }
    ensures place { W.place live.new ≡ W.place live.old }
{
    let process = live.proc(slot).unwrap();
    let first = heap_end(&process);
    let user_frames = live.user_frames();
    let mut from = 0;
    for done in 0..count {
        let number = next_free(live, user_frames, from).unwrap();
        prepare_page(live, slot, first + done, Rights::Values, None, number)?;
        from = number + 1;
    }
    Ok(())
}

/// Copies the pages of the live process in one slot for another slot, in which no process goes on. No record counts the
/// copies yet: the pages of each live process are what they were, at every answer.
///
/// So many user frames are free as the process has pages. First all words of the other slot's tables that stand for
/// pages of long ago are made 0; then each page costs the stores of its 1,024 words, of its owner word and of its table
/// word, in this order. At `Panicked` the first pages are copied.
pub fn copy_space<W: Writer>(live: &mut W, from: u32, to: u32) -> Result<(), Panicked>
    requires able { W.refused live.old ≡ false }
    requires stands { W.Stands live.old }
    requires from { from < 16 }
    requires to { to < 16 }
    requires can { IfSome (live_one ((W.records live.old).procs from)) (CanCopy (W.records live.old) from to) }
    requires goes { is_some (live_one ((W.records live.old).procs from)) ≡ true }
    ensures ok { OnOk result (IfSome ((W.records live.old).procs from)
        (IsCopied (held_by W.records W.words W.disk W.rest live.old) (held_by W.records W.words W.disk W.rest live.new) from to)) }
    ensures err { OnErr result (IfSome ((W.records live.old).procs from)
        (IsPartlyCopied (held_by W.records W.words W.disk W.rest live.old) (held_by W.records W.words W.disk W.rest live.new) from to)) }
    ensures prepares { OnlyPrepares to (held_by W.records W.words W.disk W.rest live.old) (held_by W.records W.words W.disk W.rest live.new) }
    ensures stays { OnOk result (W.refused live.new ≡ false) }
    ensures cause { OnErr result (W.refused live.new ≡ true) }
    ensures unstored { StaysUnstored (W.made live.old) (W.made live.new)
        (held_by W.records W.words W.disk W.rest live.old) (held_by W.records W.words W.disk W.rest live.new) }
    ensures allowed { OnErr result (W.may_refuse (W.rest live.old) ≡ true) }
    ensures still_stands { W.Stands live.new }
    ensures place { W.place live.new ≡ W.place live.old }
{
    clear_tables(live, to)?;
    let process = live.proc(from).unwrap();
    let next = copy_pages(live, from, to, &process, CODE_PAGE, heap_end(&process), 0)?;
    copy_pages(
        live,
        from,
        to,
        &process,
        STACK_PAGE,
        STACK_PAGE + STACK_PAGES,
        next,
    )?;
    Ok(())
}

// The page behind the heap of a live process.
fn heap_end(process: &ProcRec) -> u32
    requires fits { FitsProc process.now }
    requires live { is_live process.now ≡ true }
    ensures { result ≡ heap_end process.now }
{
    CODE_PAGE + pages(process) - STACK_PAGES
}

// Copies the pages from one on up to another, which are pages of the process, into the free frames from a number on, and
// answers the number behind the last one taken.
fn copy_pages<W: Writer>(
    live: &mut W,
    from: u32,
    to: u32,
    process: &ProcRec,
    first: u32,
    end: u32,
    taken: u32,
) -> Result<u32, Panicked>
    requires able { W.refused live.old ≡ false }
    requires stands { W.Stands live.old }
    requires from { from < 16 }
    requires to { to < 16 }
    requires there { (W.records live.old).procs from ≡ Some process.now }
    requires fits { FitsProc process.now }
    requires unused { live_one ((W.records live.old).procs to) ≡ None }
    requires order { first ≤ end }
    requires held { (page : ℕ) → first ≤ page → page < end → is_some (region_of process.now page) ≡ true }
    requires frames { free_before (W.records live.old) taken + (end - first) ≤ free_before (W.records live.old) (W.records live.old).map.user_frames }
    ensures ok { IfOk result (IsRangeCopied (held_by W.records W.words W.disk W.rest live.old)
        (held_by W.records W.words W.disk W.rest live.new) from to process.now taken first end) }
    ensures err { OnErr result (IsRangePartlyCopied (held_by W.records W.words W.disk W.rest live.old)
        (held_by W.records W.words W.disk W.rest live.new) from to process.now taken first) }
    ensures prepares { OnlyPrepares to (held_by W.records W.words W.disk W.rest live.old) (held_by W.records W.words W.disk W.rest live.new) }
    ensures stays { OnOk result (W.refused live.new ≡ false) }
    ensures cause { OnErr result (W.refused live.new ≡ true) }
    ensures unstored { StaysUnstored (W.made live.old) (W.made live.new)
        (held_by W.records W.words W.disk W.rest live.old) (held_by W.records W.words W.disk W.rest live.new) }
    ensures allowed { OnErr result (W.may_refuse (W.rest live.old) ≡ true) }
    ensures still_stands { W.Stands live.new }
    ensures place { W.place live.new ≡ W.place live.old }
{
    let user_frames = live.user_frames();
    let mut next = taken;
    for page in first..end {
        let number = next_free(live, user_frames, next).unwrap();
        let rights = region(process, page).unwrap();
        let source = frame_of_page(live, from, process, page);
        prepare_page(live, to, page, rights, source, number)?;
        next = number + 1;
    }
    Ok(next)
}
