//! How many stores a try at a resurrection asks for. The function does nothing: its contract is the law.
ghost use Rattle.std.specs.Prelude.{◌≡◌, ℕ, ◌+◌, ◌≤◌};
ghost use Rattle.ow_plant.specs.State.{EntersPanic, PlantState};
ghost use Rattle.resurrector.specs.Counts.{most_stores};

/// When a panic is entered no store of a resurrection was made (`fresh`), and a plant has at most 384 user frames. So a try
/// that begins there asks for at most 999,998 stores, with the one that is refused and without the live register (`few`).
pub const fn tries_are_short()
    ensures fresh { (before entered : PlantState) → EntersPanic before entered → entered.stores ≡ 0 }
    ensures few { (before entered after : PlantState) → EntersPanic before entered → entered.shape.user_frames ≤ 384
        → after.stores ≤ entered.stores + most_stores entered.shape.user_frames → after.stores + 1 ≤ 999998 }
{}
