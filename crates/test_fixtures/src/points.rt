//! Points at which machines that tests arm refuse a store.

ghost use Rattle.std.specs.Prelude.{◌≡◌, []};

use arrayvec::ArrayVec;
use ow_base::Point;

/// A panic at this store of this trap.
pub fn point(trap: u32, store: u32) -> Point
    ensures trap { result.trap ≡ trap }
    ensures damages { result.damages.items ≡ [] }
    ensures agains { result.agains.items ≡ [] }
{
    Point {
        trap,
        store,
        damages: ArrayVec::new(),
        agains: ArrayVec::new(),
    }
}
