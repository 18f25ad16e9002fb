//! Machines whose kernel is tested: armed with a point at which a store is refused, and the words of their area.
ghost use Rattle.std.specs.Prelude.{◌≡◌, ◌<◌, ◌≤◌, true, None, IfOk};
ghost use Rattle.ow_plant.specs.State.{IsArmed};

use ow_base::{Shape, WordSource};
use ow_plant::Plant;
use std::alloc::{AllocError, Global};
use test_fixtures::point;

/// A machine with so many user frames that refuses this store of trap 1.
pub(crate) fn machine(alloc: Global, user_frames: u32, store: u32) -> Result<Plant, AllocError>
    requires frames { user_frames ≤ 384 }
    ensures armed { IfOk result IsArmed }
    ensures free { IfOk result (λ plant. plant.refusal ≡ None) }
{
    let shape = Shape {
        user_frames,
        sectors: 4,
        quantum: 1,
        budget: 1,
    };
    let mut plant = Plant::new(alloc);
    plant.arm(alloc, shape, &[], &[], &[point(1, store)])?;
    Ok(plant)
}

/// Stores words of area A from this number on; whether no store was refused.
pub(crate) fn set_words(plant: &mut Plant, first: u32, words: &[u32]) -> bool
    requires armed { IsArmed plant.old }
    requires free { plant.old.refusal ≡ None }
    requires first { first < 200000 }
    ensures armed { IsArmed plant.new }
    ensures free { result ≡ true → plant.new.refusal ≡ None }
{
    for (place, word) in words.iter().enumerate() {
        let number = first + (place % 1024) as u32;
        match plant.store(1 + number / 1024, number % 1024, *word) {
            Ok(()) => {}
            Err(_) => return false,
        }
    }
    true
}

/// The words of the frames of area A that hold records.
pub(crate) fn record_words(alloc: Global, plant: &Plant) -> Result<Vec<u32>, AllocError> {
    let mut words = vec![in alloc; 0u32; 12288]?;
    for (number, word) in words.iter_mut().enumerate() {
        let number = (number % 12288) as u32;
        *word = WordSource::load(plant, 1 + number / 1024, number % 1024).unwrap_or(0);
    }
    Ok(words)
}

/// Whether all words that differ are of one of these ranges, of their first word and their length.
pub(crate) fn differ_there(some: &[u32], others: &[u32], ranges: &[(usize, usize)]) -> bool {
    for (number, (one, other)) in some.iter().zip(others).enumerate() {
        if one != other && !lies_in(number, ranges) {
            return false;
        }
    }
    true
}

fn lies_in(number: usize, ranges: &[(usize, usize)]) -> bool {
    for (first, length) in ranges {
        if *first <= number && number - *first < *length {
            return true;
        }
    }
    false
}
