//! Which processes go on after a panic, and with which records.
ghost use Rattle.std.specs.Prelude.{◌≡◌, ◌<◌, ◌≤◌, EachIndex, IfSome, map, slice_index, true};
ghost use Rattle.record_layouts.specs.Desc.{FitsDesc};
ghost use Rattle.record_layouts.specs.Pages.{is_live};
ghost use Rattle.record_layouts.specs.Proc.{FitsProc};
ghost use Rattle.dead_reader.specs.Left.{handed_of, records_left};
ghost use Rattle.dead_reader.specs.Losses.{bits_lost};
ghost use Rattle.dead_reader.specs.Processes.{IsDead};
ghost use Rattle.resurrector.specs.Procedures.{HasFewBits, fate_with, is_lost, revived};
ghost use Rattle.resurrector.specs.Survivors.{AreOutcomes, IsSurvivor, fate_in, is_closed_by, kept_open, left_in, outcome_in, survivor_in, with_descriptors};

use crate::procedures::revive;
use dead_reader::{DeadMemory, DeadProc, DeadView, RecordView};
use record_layouts::{DescRec, Fate, ProcRec, SLOTS};

// What a description is open on: a file.
const FILE: u32 = 1;

/// What became of the process in a slot.
#[derive(Clone, Copy, Debug, PartialEq, Eq)]
pub(crate) struct Outcome {
    /// The pid that was live in the slot.
    pub(crate) pid: Option<u32>,
    /// The fate of this pid.
    pub(crate) fate: Fate,
    /// The record with which the process goes on, if it does.
    pub(crate) survivor: Option<ProcRec>,
}

// What the panic left of the process in a slot, where all parts of it decode.
#[tactic(auto, unfolding(crate::specs::Survivors::left_in))]
fn left_in<M: DeadMemory>(view: &DeadView<'_, M>, slot: u32) -> Option<DeadProc>
    requires { slot < 16 }
    ensures is { result ≡ left_in (records_left (M.dead view.now.memory.now) (M.words view.now.memory.now)) (handed_of (M.dead view.now.memory.now).handover) slot }
    ensures there { IfSome result (IsDead (records_left (M.dead view.now.memory.now) (M.words view.now.memory.now)) (handed_of (M.dead view.now.memory.now).handover) slot) }
{
    match view.process(slot) {
        Ok(told) => told,
        Err(_) => None,
    }
}

// A descriptor of this description is closed: the description does not decode, or it is on a file whose record does not.
fn is_closed_by<V: RecordView>(view: &V, description: Option<DescRec>) -> bool
    requires { IfSome description FitsDesc }
    ensures { result ≡ is_closed_by (V.records view.now) description }
{
    match description {
        Some(description) => description.object == FILE && view.file(description.index).is_none(),
        None => true,
    }
}

// The word of a descriptor, or 0 where it is closed.
fn kept_open<V: RecordView>(view: &V, word: u32) -> u32
    requires { word ≤ 32 }
    ensures is { result ≡ kept_open (V.records view.now) word }
    ensures fits { result ≤ 32 }
{
    if word != 0 && is_closed_by(view, view.desc(word - 1)) {
        0
    } else {
        word
    }
}

// The words of the descriptors that are left.
#[tactic(auto, using(crate::proofs::Descriptors::none_closed, crate::proofs::Descriptors::one_closed, crate::proofs::Descriptors::all_closed))]
fn all_kept_open<V: RecordView>(view: &V, words: &[u32; 8]) -> [u32; 8]
    requires { EachIndex words.now (λ k. slice_index words.now k ≤ 32) }
    ensures { result ≡ map (kept_open (V.records view.now)) words.now }
{
    let mut kept = *words;
    for k in 0..8 {
        kept[k] = kept_open(view, words[k]);
    }
    kept
}

// The process with the descriptors that are left to it.
fn with_descriptors<V: RecordView>(view: &V, process: &ProcRec) -> ProcRec
    requires fits { FitsProc process.now }
    requires live { is_live process.now ≡ true }
    ensures is { result ≡ with_descriptors (V.records view.now) process.now }
    ensures fits { IsSurvivor result }
{
    ProcRec {
        descs: all_kept_open(view, &process.descs),
        ..*process
    }
}

// The record and the fate of a process that the panic left.
fn revive_left<M: DeadMemory>(view: &DeadView<'_, M>, p: &DeadProc) -> (ProcRec, Fate)
    requires { IsDead (records_left (M.dead view.now.memory.now) (M.words view.now.memory.now)) (handed_of (M.dead view.now.memory.now).handover) p.now.slot p.now }
    ensures record { result.0 ≡ revived p.now (bits_lost (records_left (M.dead view.now.memory.now) (M.words view.now.memory.now)) p.now.slot p.now.rec.descs) }
    ensures fits { FitsProc result.0 }
    ensures live { is_live result.0 ≡ true }
    ensures fate { result.1 ≡ fate_with p.now (bits_lost (records_left (M.dead view.now.memory.now) (M.words view.now.memory.now)) p.now.slot p.now.rec.descs) }
    ensures few { HasFewBits result.1 }
{
    revive(p, view.resources(p))
}

// The process does not go on.
fn is_lost(fate: Fate) -> bool
    ensures { result ≡ is_lost fate }
{
    matches!(fate, Fate::Lost(_))
}

// The fate of the process in a slot, and the record with which it goes on.
#[tactic(auto, unfolding(crate::specs::Survivors::fate_in, crate::specs::Survivors::survivor_in))]
fn fate_and_survivor<M: DeadMemory>(view: &DeadView<'_, M>, slot: u32) -> (Fate, Option<ProcRec>)
    requires { slot < 16 }
    ensures fate { result.0 ≡ fate_in (records_left (M.dead view.now.memory.now) (M.words view.now.memory.now)) (handed_of (M.dead view.now.memory.now).handover) slot }
    ensures few { HasFewBits result.0 }
    ensures survivor { result.1 ≡ survivor_in (records_left (M.dead view.now.memory.now) (M.words view.now.memory.now)) (handed_of (M.dead view.now.memory.now).handover) slot }
    ensures fits { IfSome result.1 IsSurvivor }
{
    let Some(left) = left_in(view, slot) else {
        return (Fate::Lost(0), None);
    };
    let (process, fate) = revive_left(view, &left);
    if is_lost(fate) {
        (fate, None)
    } else {
        (fate, Some(with_descriptors(view, &process)))
    }
}

// What became of the process in a slot.
fn outcome_of<M: DeadMemory>(view: &DeadView<'_, M>, slot: u32) -> Outcome
    requires { slot < 16 }
    ensures is { result ≡ outcome_in (records_left (M.dead view.now.memory.now) (M.words view.now.memory.now)) (handed_of (M.dead view.now.memory.now).handover) slot }
    ensures few { HasFewBits result.fate }
    ensures fits { IfSome result.survivor IsSurvivor }
{
    let (fate, survivor) = fate_and_survivor(view, slot);
    Outcome {
        pid: view.pid_in(slot),
        fate,
        survivor,
    }
}

/// What became of the processes in all slots.
pub(crate) fn outcomes<M: DeadMemory>(view: &DeadView<'_, M>) -> [Outcome; 16]
    requires { (M.dead view.now.memory.now).user_frames ≤ 384 }
    ensures { AreOutcomes (records_left (M.dead view.now.memory.now) (M.words view.now.memory.now)) (handed_of (M.dead view.now.memory.now).handover) result }
{
    let nothing = Outcome {
        pid: None,
        fate: Fate::Goes,
        survivor: None,
    };
    let mut outcomes = [nothing; 16];
    for slot in 0..SLOTS {
        outcomes[slot as usize] = outcome_of(view, slot);
    }
    outcomes
}
