//! The panics that a plant is armed with.
ghost use Rattle.std.specs.Prelude.{◌≡◌, [], map, IfOk};
ghost use Rattle.std.specs.List.{list_any};
ghost use Rattle.ow_plant.specs.Points.{points_of, is_in, is_past, entered_by, listed_for};

use ow_base::Point;
use std::alloc::{AllocError, Global};
use std::marker::Model;

/// Where a panic comes: in which trap, and how many stores are made in it before the first that is refused; and whether
/// it has been entered, so that it does not come again.
#[derive(Clone, Copy, Debug, PartialEq, Eq)]
pub(crate) struct PanicPoint {
    pub trap: u32,
    pub store: u32,
    pub entered: bool,
}

impl PanicPoint {
    /// The point after a panic in a trap: it does not come again, nor does one whose trap is over.
    fn after(self, trap: u32) -> PanicPoint
        ensures { result ≡ entered_by trap self }
    {
        PanicPoint {
            entered: self.entered || self.trap <= trap,
            ..self
        }
    }
}

/// The panic points of a run. Contracts see the list of them.
#[derive(Drop)]
pub(crate) struct PanicPoints {
    points: Vec<PanicPoint>,
}

impl Model for PanicPoints {
    ghost use Rattle.std.specs.Prelude.{List};
    ghost use Rattle.ow_plant.specs.declared.points.PanicPoint.{PanicPoint};

    ghost Value = { List PanicPoint };

    ghost view = { λ p. p.points.items };
}

impl PanicPoints {
    /// No point; it takes no memory.
    pub(crate) fn none(alloc: Global) -> PanicPoints
        ensures { result ≡ [] }
    {
        PanicPoints {
            points: Vec::new(alloc),
        }
    }

    /// Where these panics come. `AllocError` comes only for want of memory.
    pub(crate) fn of(alloc: Global, points: &[Point]) -> Result<PanicPoints, AllocError>
        ensures { IfOk result (λ all. all ≡ points_of points.now) }
    {
        let mut all = Vec::with_capacity(alloc, points.len())?;
        for point in points {
            all.push(PanicPoint {
                trap: point.trap,
                store: point.store,
                entered: false,
            })?;
        }
        Ok(PanicPoints { points: all })
    }

    /// Whether a trap in which so many stores are made has come to its point.
    pub(crate) fn is_past(&self, trap: u32, made: u32) -> bool
        ensures { result ≡ list_any (is_past trap made) self.now }
    {
        self.points.iter().any(|point| point.trap == trap && !point.entered && point.store <= made)
    }

    /// Whether a trap has a point that has not been entered.
    pub(crate) fn has(&self, trap: u32) -> bool
        ensures { result ≡ list_any (is_in trap) self.now }
    {
        self.points
            .iter()
            .any(|point| point.trap == trap && !point.entered)
    }

    /// The store that is listed for a trap, 0 where none is.
    pub(crate) fn listed_for(&self, trap: u32) -> u32
        ensures { result ≡ listed_for trap self.now }
    {
        for point in &self.points {
            if point.trap == trap {
                return point.store;
            }
        }
        0
    }

    /// A panic in a trap is entered: its point does not come again, nor does one whose trap is over.
    pub(crate) fn enter(&mut self, trap: u32)
        ensures { self.new ≡ map (entered_by trap) self.old }
    {
        for point in self.points.iter_mut() {
            *point = point.after(trap);
        }
    }
}
