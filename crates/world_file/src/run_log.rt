//! The fates that the panics of a run brought.
ghost use Rattle.std.specs.Prelude.{◌≡◌, ◌==◌, ◌<◌, ◌≤◌, [], IfOk, get_or, length};
ghost use Rattle.world_file.specs.RunLog.{no_fates, with_entry};

use arrayvec::ArrayVec;
use ow_base::World;
use record_layouts::Fate;
use std::alloc::{AllocError, Global};
use std::marker::Model;

/// For each panic of a run, the pids that it found live and the fate of each. A run has at most the panics that its world
/// lists, and room for these is taken when the log is made.
#[derive(Drop)]
pub struct RunLog {
    entries: Vec<ArrayVec<(u32, Fate), 16>>,
    room: usize,
}

impl Model for RunLog {
    ghost use Rattle.std.specs.Prelude.{◌≤◌, map};
    ghost use Rattle.std.specs.Vec.{vec_capacity};
    ghost use Rattle.world_file.specs.RunLog.{RunFates};

    ghost Value = { RunFates };

    ghost view = { λ log. record { entries = map (λ told. told.items) log.entries.items; room = log.room } };

    ghost invariant = { λ log. log.room ≤ vec_capacity log.entries };
}

impl RunLog {
    /// No panic, and room for each that the world lists. `AllocError` comes only for want of memory.
    pub fn new(alloc: Global, world: &World) -> Result<RunLog, AllocError>
        ensures { IfOk result (λ log. log ≡ no_fates (length world.now.panics)) }
    {
        let room = world.panics.items().len();
        Ok(RunLog {
            entries: Vec::with_capacity(alloc, room)?,
            room,
        })
    }

    /// Adds what the next panic brought, for which there must be room: at most 16 pids, each with its fate. It takes no
    /// memory.
    pub fn add(&mut self, fates: &[(u32, Fate)])
        requires room { length self.old.entries < self.old.room }
        requires few { length fates.now ≤ 16 }
        ensures added { self.new ≡ with_entry self.old fates.now }
    {
        let mut told = ArrayVec::new();
        match told.try_extend_from_slice(fates) {
            Ok(()) => self.entries.push_reserved(told),
            Err(_) => unreachable!(),
        }
    }

    /// How many panics have come.
    pub fn len(&self) -> usize
        ensures { result ≡ length self.now.entries }
    {
        self.entries.len()
    }

    /// Whether no panic has come.
    pub fn is_empty(&self) -> bool
        ensures { result ≡ length self.now.entries == 0 }
    {
        self.entries.is_empty()
    }

    /// What a panic brought, of which the first one has index 0.
    pub fn entry(&self, index: usize) -> &[(u32, Fate)]
        requires { index < length self.now.entries }
        ensures { result.now ≡ get_or self.now.entries index [] }
    {
        self.entries[index].as_slice()
    }
}
