//! What a world gives to boot. The function does nothing: its contract is the law.
ghost use Rattle.std.specs.Prelude.{◌≡◌, ℕ, List};
ghost use Rattle.ow_base.specs.World.{IsWorld};
ghost use Rattle.ow_base.specs.declared.worlds.Point.{Point};
ghost use Rattle.ow_base.specs.declared.worlds.World.{World};
ghost use Rattle.ow_plant.specs.Points.{ArePoints, points_of};
ghost use Rattle.ow_plant.specs.State.{PlantState};
ghost use Rattle.kernel_traps.specs.Boot.{IsBootable};
ghost use Rattle.kernel_traps.specs.BootStores.{HasNoneAtBoot};

/// A machine can boot with the load of each world, and where it was armed with points it has none at boot.
pub const fn worlds_can_boot()
    ensures load { (text : List ℕ) (world : World) → IsWorld text world → IsBootable world.load }
    ensures points { (points : List Point) (s : PlantState) → ArePoints points → s.points ≡ points_of points → HasNoneAtBoot s }
{}
