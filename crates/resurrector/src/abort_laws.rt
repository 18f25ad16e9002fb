//! That the kernel which is built after a panic is the one of Abort. The functions do nothing: their contracts are the laws.
ghost use Rattle.std.specs.Prelude.{◌≡◌, ◌≤◌, ℕ, List, Option, Some};
ghost use Rattle.ow_base.specs.Images.{Image};
ghost use Rattle.ow_base.specs.Sv32.{WordMap};
ghost use Rattle.ow_plant.specs.Dead.{DeadState};
ghost use Rattle.dead_reader.specs.Left.{handed_of, records_left};
ghost use Rattle.kernel_builder.specs.Sets.{IsBuilt};
ghost use Rattle.record_layouts.specs.declared.memory_map.MemoryMap.{MemoryMap};
ghost use Rattle.record_layouts.specs.Decode.{InKernel, unix_of};
ghost use Rattle.record_layouts.specs.Held.{Records};
ghost use Rattle.record_layouts.specs.Images.{records_of_image};
ghost use Rattle.record_layouts.specs.Left.{HandedOver};
ghost use Rattle.record_layouts.specs.LeftImages.{unix_left};
ghost use Rattle.record_layouts.specs.Reading.{records_of};
ghost use Rattle.record_layouts.specs.SoundImages.{IsSoundAtPanic};
ghost use Rattle.record_layouts.specs.Unix.Abort.{abort, fates};
ghost use Rattle.record_layouts.specs.Unix.Wounds.{no_wounds};
ghost use Rattle.resurrector.specs.Rebuilt.{IsRevived, image_left, tapes_put};
ghost use Rattle.resurrector.specs.Revived.{fates_left, plan_of, revived_plan};

/// What is read of frames that were built after the plan of a revival, where there are as many user frames as before.
pub const fn built_kernels_are_revived()
    ensures { (r : Records) (handed : Option HandedOver) (counts : List ℕ) (words : WordMap) (map : MemoryMap) (old new : WordMap)
        → map.user_frames ≤ 384 → map.user_frames ≡ r.map.user_frames
        → IsBuilt map (revived_plan r handed counts words) old new
        → IsRevived r handed counts words (records_of map new) new }
{}

/// Where nothing that a panic left is damaged, what is read of the revived kernel stands for the state that Abort leaves, once
/// the bytes in flight are put on the tapes. So does what was built of it in frames of its own.
pub const fn revived_kernels_are_of_abort()
    ensures read { (i : Image) (h : HandedOver) (most trap steps traps : ℕ) (counts : List ℕ) (next : Records) (next_words : WordMap)
        → IsSoundAtPanic i most trap → IsRevived (records_of_image i) (Some h) counts i.words next next_words
        → unix_of next next_words (tapes_put (records_of_image i) i.tapes) InKernel steps traps
        ≡ abort (unix_left i h steps traps) (no_wounds (unix_left i h steps traps)) }
    ensures built { (dead : DeadState) (words : WordMap) (tapes : ℕ → List ℕ) (h : HandedOver) → handed_of dead.handover ≡ Some h
        → (most trap steps traps : ℕ) → IsSoundAtPanic (image_left dead words tapes) most trap
        → (map : MemoryMap) (old new : WordMap) → map.user_frames ≤ 384 → map.user_frames ≡ dead.user_frames
        → IsBuilt map (plan_of dead words) old new
        → unix_of (records_of map new) new (tapes_put (records_left dead words) tapes) InKernel steps traps
        ≡ abort (unix_left (image_left dead words tapes) h steps traps) (no_wounds (unix_left (image_left dead words tapes) h steps traps)) }
{}

/// The fates that are told then are those of Abort, in the order of the pids. There are no more than sixteen.
pub const fn told_fates_are_of_abort()
    ensures { (dead : DeadState) (words : WordMap) (tapes : ℕ → List ℕ) (h : HandedOver) → handed_of dead.handover ≡ Some h
        → (most trap steps traps : ℕ) → IsSoundAtPanic (image_left dead words tapes) most trap
        → fates_left dead words
        ≡ fates (unix_left (image_left dead words tapes) h steps traps) (no_wounds (unix_left (image_left dead words tapes) h steps traps)) }
{}
