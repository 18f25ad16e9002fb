//! What a plant is after a panic, and after the revival that follows it. The functions do nothing: their contracts are the
//! laws.
ghost use Rattle.std.specs.Prelude.{◌≡◌, ◌≤◌};
ghost use Rattle.dead_reader.specs.Left.{told_by};
ghost use Rattle.kernel_traps.specs.Plants.{IsSound, unix_at};
ghost use Rattle.ow_plant.specs.Images.{image_of};
ghost use Rattle.ow_plant.specs.State.{EntersPanic, IsArmed, PlantState, handed_over};
ghost use Rattle.record_layouts.specs.Left.{HandedOver};
ghost use Rattle.record_layouts.specs.LeftImages.{unix_left};
ghost use Rattle.record_layouts.specs.SoundImages.{IsSoundAtPanic};
ghost use Rattle.schedule_runner.specs.Revivals.{IsBroken, IsResurrected, fates_aborted, fates_told, taken_over, unix_aborted, unix_broken};

/// Where all of a kernel is sound when a panic is entered, the plant then holds what a resurrection needs, and the state
/// that is left is the one of before with what was handed over.
pub const fn entered_panics_are_broken()
    ensures broken { (old new : PlantState) → EntersPanic old new → IsArmed old → old.steps ≤ old.shape.budget
        → IsSoundAtPanic (image_of old) old.steps old.traps → IsBroken new (told_by (handed_over old)) }
    ensures unix { (old new : PlantState) → EntersPanic old new → IsArmed old
        → unix_broken new (told_by (handed_over old)) ≡ unix_left (image_of old) (told_by (handed_over old)) old.steps old.traps }
{}

/// Where nothing that a panic left is damaged, the plant is sound once the kernel that was resurrected has taken over, and
/// stands for the state that Abort leaves, with the same steps and traps. The fates that are told of the words of the dead
/// kernel are those of Abort, in the order of the pids.
pub const fn revived_plants_are_of_abort()
    ensures sound { (old new : PlantState) (h : HandedOver) → IsBroken old h → IsResurrected old new → IsSound (taken_over new) }
    ensures unix { (old new : PlantState) (h : HandedOver) → IsBroken old h → IsResurrected old new → unix_at (taken_over new) ≡ unix_aborted old h }
    ensures fates { (old : PlantState) (h : HandedOver) → IsBroken old h → fates_told old ≡ fates_aborted old h }
{}
