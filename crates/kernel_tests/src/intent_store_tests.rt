//! Commits that are refused at each of their stores, and what is read of memory then.
ghost use Rattle.std.specs.Prelude.{◌≡◌, ◌<◌, true, None, IfSome};
ghost use Rattle.ow_plant.specs.State.{IsArmed};
ghost use Rattle.record_layouts.specs.Held.{IsCommittable, Records};
ghost use Rattle.record_layouts.specs.Head.{FitsHead};
ghost use Rattle.record_layouts.specs.Proc.{FitsProc};
ghost use Rattle.record_layouts.specs.Sig.{FitsSig};
ghost use Rattle.record_layouts.specs.Desc.{FitsDesc};
ghost use Rattle.record_layouts.specs.File.{FitsFile};
ghost use Rattle.record_layouts.specs.Cache.{FitsCache};
ghost use Rattle.record_layouts.specs.Term.{FitsTerm};
ghost use Rattle.record_layouts.specs.Row.{FitsRow};
ghost use Rattle.record_layouts.specs.Exit.{FitsExit};

use crate::plants::{differ_there, machine, record_words, set_words};
use intent_store::Live;
use ow_base::Came;
use ow_plant::Plant;
use record_layouts::{
    AnyRec, AreaView, CacheRec, DescRec, ExitRec, FileRec, HeadRec, MemoryMap, Patch, PatchItem,
    ProcRec, RecordId, RecordView, RowRec, SigRec, TermRec, Writer,
};
use std::alloc::{AllocError, Global};
use std::test::Fail;
use test_fixtures::{
    AFTER, BEFORE, CACHE, DESC, EXIT, FILE, HEAD, MAP, PROC, ROW, SIG, TERM, intent_of_5, sealed,
};

const DISK: MemoryMap = MemoryMap { sectors: 4, ..MAP };

fn head(v: u32) -> Option<HeadRec>
    requires { v < 2 }
    ensures { IfSome result FitsHead }
{
    HeadRec::from_words(&sealed(&[HEAD, 1, 5 + v, 1, 6]))
}

fn proc(v: u32) -> Option<ProcRec>
    requires { v < 2 }
    ensures { IfSome result FitsProc }
{
    ProcRec::from_words(&sealed(&[PROC, 3, 256, 7, 0, 0, 0, 0, 0, 0, 0, 0, 0x10a + v]))
}

fn sig(v: u32) -> Option<SigRec>
    requires { v < 2 }
    ensures { IfSome result FitsSig }
{
    SigRec::from_words(&sealed(&[SIG, 4, 2 + 2 * v]))
}

fn desc(v: u32) -> Option<DescRec>
    requires { v < 2 }
    ensures { IfSome result FitsDesc }
{
    DescRec::from_words(&sealed(&[DESC, 2, 1, 1 + v]))
}

// No file, and an empty one.
fn file(v: u32) -> Option<FileRec>
    requires { v < 2 }
    ensures fits { IfSome result FitsFile }
    ensures none_kept { IfSome result (λ file. file.kept ≡ 0) }
{
    let file = FileRec::from_words(&sealed(&[FILE, v, v, 0x61 * v]))?;
    if file.kept == 0 { Some(file) } else { None }
}

fn cache(v: u32) -> Option<CacheRec>
    requires { v < 2 }
    ensures { IfSome result FitsCache }
{
    CacheRec::from_words(&sealed(&[CACHE, 1 + v, 31, 63]))
}

fn term(v: u32) -> Option<TermRec>
    requires { v < 2 }
    ensures { IfSome result FitsTerm }
{
    TermRec::from_words(&sealed(&[TERM, 1, 9 + v]))
}

fn row(v: u32) -> Option<RowRec>
    requires { v < 2 }
    ensures { IfSome result FitsRow }
{
    RowRec::from_words(&sealed(&[ROW, 47, 0x6463_6261 + v]))
}

fn exit(v: u32) -> Option<ExitRec>
    requires { v < 2 }
    ensures { IfSome result FitsExit }
{
    ExitRec::from_words(&sealed(&[EXIT, 1, 3 + v]))
}

fn one(v: u32) -> Option<Patch>
    requires { v < 2 }
    ensures { IfSome result (λ patch. (r : Records) → IsCommittable r patch.items.items) }
{
    let mut patch = Patch::new();
    patch.put(RecordId::Exit(256), AnyRec::Exit(exit(v)?));
    Some(patch)
}

fn three(v: u32) -> Option<Patch>
    requires { v < 2 }
    ensures { IfSome result (λ patch. (r : Records) → IsCommittable r patch.items.items) }
{
    let mut patch = Patch::new();
    patch.put(RecordId::Head, AnyRec::Head(head(v)?));
    patch.put(RecordId::Term(1), AnyRec::Term(term(v)?));
    patch.put(RecordId::Row(47), AnyRec::Row(row(v)?));
    Some(patch)
}

fn six(v: u32) -> Option<Patch>
    requires { v < 2 }
    ensures { IfSome result (λ patch. (r : Records) → IsCommittable r patch.items.items) }
{
    let mut patch = Patch::new();
    patch.put(RecordId::Head, AnyRec::Head(head(v)?));
    patch.put(RecordId::Proc(15), AnyRec::Proc(proc(v)?));
    patch.put(RecordId::Sig(15), AnyRec::Sig(sig(v)?));
    patch.put(RecordId::Desc(31), AnyRec::Desc(desc(v)?));
    patch.put(RecordId::File(31), AnyRec::File(file(v)?));
    patch.put(RecordId::Cache(63), AnyRec::Cache(cache(v)?));
    Some(patch)
}

// A patch of so many records, as they were before or as they become.
fn patch_of(count: u32, v: u32) -> Option<Patch>
    requires { v < 2 }
    ensures { IfSome result (λ patch. (r : Records) → IsCommittable r patch.items.items) }
{
    match count {
        1 => one(v),
        3 => three(v),
        _ => six(v),
    }
}

// Whether the record is read.
fn is_read(plant: &Plant, item: &PatchItem) -> bool {
    let view = AreaView::new(plant, DISK);
    let read = match item.id {
        RecordId::Head => view.head().map(|rec| AnyRec::Head(rec)),
        RecordId::Proc(15) => view.proc(15).map(|rec| AnyRec::Proc(rec)),
        RecordId::Sig(15) => view.sig(15).map(|rec| AnyRec::Sig(rec)),
        RecordId::Desc(31) => view.desc(31).map(|rec| AnyRec::Desc(rec)),
        RecordId::File(31) => view.file(31).map(|rec| AnyRec::File(rec)),
        RecordId::Cache(63) => view.cache(63).map(|rec| AnyRec::Cache(rec)),
        RecordId::Term(1) => view.term(1).map(|rec| AnyRec::Term(rec)),
        RecordId::Row(47) => view.row(47).map(|rec| AnyRec::Row(rec)),
        RecordId::Exit(256) => view.exit(256).map(|rec| AnyRec::Exit(rec)),
        _ => None,
    };
    read == Some(item.rec)
}

fn are_read(plant: &Plant, patch: &Patch) -> bool {
    for item in patch.items.as_slice() {
        if !is_read(plant, item) {
            return false;
        }
    }
    true
}

// Opens an intent that sets the record of pid 5.
fn open_earlier(plant: &mut Plant) -> bool
    requires armed { IsArmed plant.old }
    requires free { plant.old.refusal ≡ None }
    ensures armed { IsArmed plant.new }
    ensures free { result ≡ true → plant.new.refusal ≡ None }
{
    let (payload, seal) = intent_of_5();
    set_words(plant, 17, &payload) && set_words(plant, 1023, &[seal]) && set_words(plant, 16, &[7])
}

fn commit_on(plant: &mut Plant, patch: &Patch) -> bool
    requires armed { IsArmed plant.old }
    requires free { plant.old.refusal ≡ None }
    requires patch { (r : Records) → IsCommittable r patch.now.items.items }
    ensures armed { IsArmed plant.new }
    ensures free { result ≡ true → plant.new.refusal ≡ None }
{
    let mut live = Live::new(plant);
    if live.head().is_none() {
        return false;
    }
    live.commit(&patch.view()).is_ok()
}

// What a commit came to: whether it answered Ok, how many stores it made, whether the records are read as they were
// and as they were to become, whether that of pid 5 is as it was, and whether no word beside these and the block changed.
#[derive(Clone, Copy, Debug, PartialEq, Eq)]
struct Outcome {
    done: bool,
    stores: u32,
    before: bool,
    after: bool,
    earlier: bool,
    rest: bool,
}

// A patch of so many records, where they and the block and the record of pid 5 lie, how many stores its commit makes,
// and which of them opens its intent.
struct Case {
    count: u32,
    ranges: &'static [(usize, usize)],
    stores: u32,
    opens: u32,
}

const CASES: [Case; 3] = [
    Case {
        count: 1,
        ranges: &[(16, 1008), (11280, 4), (12284, 4)],
        stores: 14,
        opens: 8,
    },
    Case {
        count: 3,
        ranges: &[(0, 1024), (11280, 4), (7696, 16), (9320, 24)],
        stores: 124,
        opens: 66,
    },
    Case {
        count: 6,
        ranges: &[
            (0, 1024),
            (11280, 4),
            (2944, 128),
            (3552, 32),
            (4080, 16),
            (7072, 96),
            (7672, 8),
        ],
        stores: 613,
        opens: 315,
    },
];

// The stores that carry out the earlier intent: a word is copied four times, and the gate is closed.
const EARLIER_STORES: u32 = 5;

// Sets the records as they were before, and opens an earlier intent or not; whether no store was refused.
fn prepare(plant: &mut Plant, old: &Patch, is_open: bool) -> bool
    requires armed { IsArmed plant.old }
    requires free { plant.old.refusal ≡ None }
    requires patch { (r : Records) → IsCommittable r old.now.items.items }
    ensures armed { IsArmed plant.new }
    ensures free { result ≡ true → plant.new.refusal ≡ None }
{
    set_words(plant, 0, &sealed::<16>(&[HEAD, 1, 5, 1, 6]))
        && set_words(plant, 11280, &sealed::<4>(&[EXIT, 1, 3]))
        && commit_on(plant, old)
        && (!is_open || open_earlier(plant))
}

// What is read behind the commit of records that were so and were to become so.
fn behind(plant: &Plant, old: &Patch, new: &Patch, is_open: bool, done: bool) -> Outcome
    requires { IsArmed plant.now }
{
    let want = if is_open { AFTER } else { BEFORE };
    Outcome {
        done,
        stores: plant.stores_made(),
        before: are_read(plant, old),
        after: are_read(plant, new),
        earlier: AreaView::new(plant, DISK).exit(5) == Some(want),
        rest: true,
    }
}

// Whether a commit in a trap of its own answered Ok.
fn commit_in_trap(plant: &mut Plant, new: &Patch) -> bool
    requires armed { IsArmed plant.old }
    requires free { plant.old.refusal ≡ None }
    requires patch { (r : Records) → IsCommittable r new.now.items.items }
    ensures armed { IsArmed plant.new }
{
    plant.enter(Came::Kernel, 1);
    commit_on(plant, new)
}

// The same, and whether all words stayed that are of none of these ranges.
fn commit_beside(
    alloc: Global,
    plant: &mut Plant,
    new: &Patch,
    ranges: &[(usize, usize)],
) -> Result<(bool, bool), AllocError>
    requires armed { IsArmed plant.old }
    requires free { plant.old.refusal ≡ None }
    requires patch { (r : Records) → IsCommittable r new.now.items.items }
    ensures armed { IsArmed plant.new }
{
    let words = record_words(alloc, plant)?;
    let done = commit_in_trap(plant, new);
    let after = record_words(alloc, plant)?;
    Ok((done, differ_there(&words, &after, ranges)))
}

// The commit of a patch whose store of this number is refused, over an earlier intent that is open or not. There are many
// words, so they are compared at some of the stores.
fn trial(
    alloc: Global,
    case: &Case,
    is_open: bool,
    store: u32,
) -> Result<Option<Outcome>, AllocError> {
    let (Some(old), Some(new)) = (patch_of(case.count, 0), patch_of(case.count, 1)) else {
        return Ok(None);
    };
    let mut plant = machine(alloc, 0, store)?;
    if !prepare(&mut plant, &old, is_open) {
        return Ok(None);
    }
    let (done, rest) = if store % 16 == 9 {
        commit_beside(alloc, &mut plant, &new, case.ranges)?
    } else {
        (commit_in_trap(&mut plant, &new), true)
    };
    Ok(Some(Outcome {
        rest,
        ..behind(&plant, &old, &new, is_open, done)
    }))
}

// What the commit of a case comes to where its store of this number is refused.
fn wanted(case: &Case, is_open: bool, store: u32) -> Outcome {
    let first = if is_open { EARLIER_STORES } else { 0 };
    let is_set = store > first.saturating_add(case.opens);
    Outcome {
        done: store == first.saturating_add(case.stores),
        stores: store,
        before: !is_set,
        after: is_set,
        earlier: true,
        rest: true,
    }
}

// Refuses each store of the commit of a case in a trial of its own, and none in the last trial; the first store whose
// trial comes to something else, with that.
fn first_wrong(
    alloc: Global,
    case: &Case,
    is_open: bool,
) -> Result<Option<(u32, Option<Outcome>)>, AllocError> {
    let first = if is_open { EARLIER_STORES } else { 0 };
    for store in 0..=first.saturating_add(case.stores) {
        let got = trial(alloc, case, is_open, store)?;
        if got != Some(wanted(case, is_open, store)) {
            return Ok(Some((store, got)));
        }
    }
    Ok(None)
}

#[test]
fn all_or_none(rt: HostRuntime) -> Result<(), Fail> {
    for case in &CASES {
        let wrong = first_wrong(rt.alloc(), case, false)?;
        assert_eq!(rt; wrong, None, "{}", case.count);
    }
    Ok(())
}

#[test]
fn all_or_none_over_an_open_intent(rt: HostRuntime) -> Result<(), Fail> {
    for case in &CASES {
        let wrong = first_wrong(rt.alloc(), case, true)?;
        assert_eq!(rt; wrong, None, "{}", case.count);
    }
    Ok(())
}
