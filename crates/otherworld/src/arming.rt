//! A plant is armed for a world, and the log of its run is made.

ghost use Rattle.std.specs.Prelude.{◌≡◌, ℕ, false, List, map, IfOk, OnErr};
ghost use Rattle.ow_base.specs.World.{IsWorld};
ghost use Rattle.world_file.specs.WorldRefusals.{IsBuilt};
ghost use Rattle.otherworld.specs.Arming.{IsArmedFor, point_of};

use arrayvec::ArrayVec;
use ow_base::{PanicLine, Point, World};
use ow_plant::Plant;
use std::alloc::{AllocError, Global};
use world_file::RunLog;

/// The point of a panic. Nothing is damaged there, and no store of a revival is refused.
fn point_at(panic: &PanicLine) -> Point
    ensures { result ≡ point_of panic.now }
{
    Point {
        trap: panic.trap,
        store: panic.store,
        damages: ArrayVec::new(),
        agains: ArrayVec::new(),
    }
}

/// The points at which the panics of a world come.
fn points_of(alloc: Global, panics: &[PanicLine]) -> Result<Vec<Point>, AllocError>
    ensures { IfOk result (λ points. points.items ≡ map point_of panics.now) }
{
    let mut points = Vec::with_capacity(alloc, panics.len())?;
    for panic in panics {
        points.push(point_at(panic))?;
    }
    Ok(points)
}

/// Arms a plant with the shape of a world and with the points of its panics, and makes the log of a run of it. After
/// that the run takes no more memory.
///
/// `AllocError` comes only for want of memory, and then the plant is as it was.
pub(crate) fn arm_for(alloc: Global, plant: &mut Plant, world: &World) -> Result<RunLog, AllocError>
    requires idle { plant.old.armed ≡ false }
    requires value { (input : List ℕ) × IsWorld input world.now }
    requires built { IsBuilt world.now }
    ensures armed { IfOk result (λ log. IsArmedFor world.now log plant.new) }
    ensures err { OnErr result (plant.new ≡ plant.old) }
{
    let log = RunLog::new(alloc, world)?;
    let points = points_of(alloc, world.panics.items())?;
    plant.arm(alloc, world.load.shape, &[], &[], points.as_slice())?;
    Ok(log)
}
