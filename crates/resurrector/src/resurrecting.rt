//! Building a kernel from what a panic left.
ghost use Rattle.std.specs.Prelude.{◌≡◌, ◌+◌, ◌++◌, ◌<◌, ◌≤◌, true, Some, take, OnOk, OnErr, IfOk};
ghost use Rattle.dead_reader.specs.Left.{handed_of};
ghost use Rattle.kernel_builder.specs.Counts.{most_built};
ghost use Rattle.kernel_builder.specs.Plan.{HasFrames};
ghost use Rattle.kernel_builder.specs.Reading.{IsReadAs};
ghost use Rattle.kernel_builder.specs.Sets.{IsBuilt, outside};
ghost use Rattle.ow_plant.specs.declared.refusal.Refusal.TheVariants.{Store};
ghost use Rattle.resurrector.specs.Revived.{fates_left, plan_of};
ghost use Rattle.resurrector.specs.Survivors.{AreOutcomes, fates_to, told_of};

use crate::left::Left;
use crate::survivors::outcomes;
use arrayvec::ArrayVec;
use dead_reader::{DeadMemory, DeadView, RecordView};
use kernel_builder::build_kernel;
use ow_base::Panicked;
use record_layouts::{Fate, MemoryMap, PIDS_END};
use word_store::WordStore;

// The greatest pid.
const PIDS: u32 = PIDS_END - 1;

/// What became of the processes that were live when a kernel panicked.
#[derive(Debug, Drop)]
pub struct Revival {
    /// The fate of each by its pid, the least pid first.
    pub fates: ArrayVec<(u32, Fate), 16>,
}

// Tells the fate of a pid, if it has one and there is room.
fn tell(fates: &mut ArrayVec<(u32, Fate), 16>, pid: u32, fate: Option<Fate>)
    ensures { fates.new.items ≡ take 16 (fates.old.items ++ told_of pid fate) }
{
    let has_room = !fates.is_full();
    if let Some(fate) = fate {
        if has_room {
            fates.push((pid, fate));
        }
    }
}

// The fates of all pids that were live, the first sixteen of them.
#[tactic(auto, using(crate::proofs::Telling::first_fates))]
fn tell_all<V: RecordView>(left: &Left<'_, V>) -> ArrayVec<(u32, Fate), 16>
    requires { AreOutcomes (V.records left.now.view.now) (handed_of left.now.handed) left.now.outcomes }
    ensures { result.items ≡ take 16 (fates_to (V.records left.now.view.now) (handed_of left.now.handed) 256) }
{
    let mut fates = ArrayVec::new();
    for before in 0..PIDS {
        tell(&mut fates, before + 1, left.fate_of(before + 1));
    }
    fates
}

/// Builds a kernel that can go on from what one has left that panicked, in frames of its own of which nothing is assumed.
///
/// It tells the fates of the processes that were live. `Panicked` comes where a store is refused; then frames that are not
/// its own are as they were.
pub fn resurrect_into<M: DeadMemory, S: WordStore>(
    dead: &M,
    own: &mut S,
    map: &MemoryMap,
) -> Result<Revival, Panicked>
    requires able { S.able own.old ≡ true }
    requires map { HasFrames (S.words own.old) map.now }
    requires frames { map.now.user_frames ≡ (M.dead dead.now).user_frames }
    ensures built { OnOk result (IsBuilt map.now (plan_of (M.dead dead.now) (M.words dead.now)) (S.words own.old) (S.words own.new)) }
    ensures read { OnOk result (IsReadAs map.now (plan_of (M.dead dead.now) (M.words dead.now)) (S.words own.new)) }
    ensures fates { IfOk result (λ revival. revival.fates.items ≡ fates_left (M.dead dead.now) (M.words dead.now)) }
    ensures frames { HasFrames (S.words own.new) map.now }
    ensures outside { outside map.now (S.words own.new) ≡ outside map.now (S.words own.old) }
    ensures rest { S.rest own.new ≡ S.rest own.old }
    ensures stays { OnOk result (S.able own.new ≡ true) }
    ensures cause { OnErr result (S.refusal own.new ≡ Some Store) }
    ensures counted { S.made own.new ≤ S.made own.old + most_built map.now.user_frames }
    ensures allowed { OnErr result (S.may_refuse (S.rest own.old) ≡ true) }
    ensures place { S.place own.new ≡ S.place own.old }
{
    let view = DeadView::new(dead);
    let left = Left {
        view: &view,
        handed: dead.handover(),
        counts: [dead.count(0), dead.count(1)],
        outcomes: outcomes(&view),
    };
    build_kernel(own, map, &left)?;
    Ok(Revival {
        fates: tell_all(&left),
    })
}
