//! The panics so far, and the room for those to come.
ghost use Rattle.std.specs.Prelude.{◌≡◌, ◌<◌, ◌≤◌, [], IfOk, length};
ghost use Rattle.phys_memory.specs.Memory.{whole};
ghost use Rattle.ow_plant.specs.Past.{TakesEntry, no_past};

use arrayvec::ArrayVec;
use ow_base::{AreaId, List, PanicRecord};
use phys_memory::Memory;
use std::alloc::{AllocError, Global};
use std::marker::Model;

/// What the record of a panic tells beside the words of memory and what is listed.
#[derive(Clone, Copy)]
pub(crate) struct Told {
    pub trap: u32,
    pub store: u32,
    pub listed: u32,
    pub at_leave: bool,
    pub pid: u32,
    pub area: AreaId,
    pub tapes: [u32; 2],
}

/// The panics so far, with room for a fixed number of further ones. Memory for the words that they keep is taken when it
/// is made, and none of it is written before its panic comes.
#[derive(Drop)]
pub(crate) struct Past {
    entries: Vec<PanicRecord>,
    spare: Vec<Vec<u32>>,
    words: usize,
}

impl Model for Past {
    ghost use Rattle.std.specs.Prelude.{◌≡◌, ◌+◌, ◌≤◌, [], length};
    ghost use Rattle.std.specs.List.{All};
    ghost use Rattle.std.specs.Vec.{vec_capacity};
    ghost use Rattle.ow_plant.specs.Past.{PastPanics};

    ghost Value = { PastPanics };

    ghost view = { λ p. record { entries = p.entries.items; room = length p.spare.items; words = p.words } };

    ghost invariant = { λ p. (length p.entries.items + length p.spare.items ≤ vec_capacity p.entries)
        × All (λ v. (v.items ≡ []) × (p.words ≤ vec_capacity v)) p.spare.items };
}

impl Past {
    /// No panic, and room for none; it takes no memory.
    pub(crate) fn none(alloc: Global) -> Past
        ensures { result ≡ no_past 0 0 }
    {
        Past {
            entries: Vec::new(alloc),
            spare: Vec::new(alloc),
            words: 0,
        }
    }

    /// No panic, and room for so many with so many words each. `AllocError` comes only for want of memory.
    pub(crate) fn with_room(alloc: Global, count: usize, words: usize) -> Result<Past, AllocError>
        ensures { IfOk result (λ past. past ≡ no_past count words) }
    {
        let entries = Vec::with_capacity(alloc, count)?;
        let mut spare = Vec::with_capacity(alloc, count)?;
        while spare.len() < count {
            spare.push(Vec::with_capacity(alloc, words)?)?;
        }
        Ok(Past {
            entries,
            spare,
            words,
        })
    }

    /// Adds a panic, for which there must be room, with the words that memory has.
    pub(crate) fn add(&mut self, told: Told, memory: &Memory)
        requires room { 0 < self.old.room }
        requires words { length (whole memory.now) ≤ self.old.words }
        ensures { TakesEntry told (whole memory.now) self.old self.new }
    {
        let room = match self.spare.pop() {
            Some(room) => room,
            None => unreachable!(),
        };
        let disk = Vec::new(*room.allocator());
        let Told {
            trap,
            store,
            listed,
            at_leave,
            pid,
            area,
            tapes,
        } = told;
        self.entries.push_reserved(PanicRecord {
            trap,
            store,
            listed,
            at_leave,
            pid,
            area,
            image: List::new(memory.image_in(room)),
            disk: List::new(disk),
            tapes,
            lines: ArrayVec::new(),
            damage: ArrayVec::new(),
            broken: ArrayVec::new(),
        });
    }

    /// The panics, the first one first.
    pub(crate) fn entries(&self) -> &[PanicRecord]
        ensures { result.now ≡ self.now.entries }
    {
        self.entries.as_slice()
    }
}
