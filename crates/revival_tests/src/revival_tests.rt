//! Revivals over words of every kind, and revivals that are refused and begun again.
ghost use Rattle.std.specs.Prelude.{◌≤◌};

use crate::half::Half;
use crate::images::{earlier, many, small};
use crate::memories::{DeadHalf, OwnHalf};
use crate::random::Random;
use dead_reader::DeadMemory;
use ow_base::AreaId;
use resurrector::{Fate, Revival, resurrect_into};
use std::alloc::{AllocError, Global};
use std::test::Fail;

// More stores than any revival makes.
const UNREFUSED: u64 = 1_000_000;

// The ranges of words of a half that a revival stores: the records with the gate of the intent, the owners, the tables of
// slots that are live, and the pages that are held. All else of the half is of no meaning.
type Ranges = [(usize, usize); 6];

const SMALL: Ranges = [
    (0, 17),
    (1024, 7 * 1024 + 544),
    (8 * 1024, 9 * 1024 + 128),
    (10 * 1024, 12 * 1024),
    (25 * 1024, 28 * 1024),
    (128 * 1024, 133 * 1024),
];

const FULL: Ranges = [
    (0, 17),
    (1024, 7 * 1024 + 544),
    (8 * 1024, 9 * 1024 + 128),
    (10 * 1024, 12 * 1024),
    (16 * 1024, 64 * 1024),
    (128 * 1024, 512 * 1024),
];

// Two halves have the same words in these ranges.
fn are_same(one: &Half, other: &Half, ranges: &Ranges) -> bool {
    for (from, end) in ranges {
        let (words, others) = (one.words().get(*from..*end), other.words().get(*from..*end));
        if words.is_none() || words != others {
            return false;
        }
    }
    true
}

// Half B beside what is dead, with this word everywhere.
fn beside(alloc: Global, dead: &DeadHalf, word: u32) -> Result<Half, AllocError> {
    Half::filled(alloc, AreaId::B, dead.user_frames(), word)
}

// Revives into a half of which so many stores are made, and tells how many there were.
fn revive(dead: &DeadHalf, half: &mut Half, stores: u64) -> Option<(Revival, u64)> {
    let map = half.map();
    if map.user_frames != dead.user_frames() {
        return None;
    }
    let mut own = OwnHalf {
        half,
        left: stores,
        made: 0,
        is_refused: false,
    };
    let revival = resurrect_into(dead, &mut own, &map).ok()?;
    Some((revival, own.made))
}

#[test]
fn what_stood_there_is_not_asked(rt: HostRuntime) -> Result<(), Fail> {
    let dead = small(rt.alloc())?;
    let mut first = beside(rt.alloc(), &dead, 0)?;
    let (told, _) = revive(&dead, &mut first, UNREFUSED).ok_or("is not refused")?;
    assert_eq!(rt; told.fates.as_slice(), [(5, Fate::Aborted)].as_slice());
    let mut own = beside(rt.alloc(), &dead, u32::MAX)?;
    assert_eq!(rt; revive(&dead, &mut own, UNREFUSED).is_some(), true);
    assert_eq!(rt; are_same(&own, &first, &SMALL), true);
    let life = earlier(rt.alloc())?;
    assert_eq!(rt; revive(&life, &mut own, UNREFUSED).is_some(), true);
    assert_eq!(rt; are_same(&own, &first, &SMALL), false);
    assert_eq!(rt; revive(&dead, &mut own, UNREFUSED).is_some(), true);
    assert_eq!(rt; are_same(&own, &first, &SMALL), true);
    Ok(())
}

#[test]
fn random_words_are_not_asked(rt: HostRuntime) -> Result<(), Fail> {
    let dead = small(rt.alloc())?;
    let mut first = beside(rt.alloc(), &dead, 0)?;
    assert_eq!(rt; revive(&dead, &mut first, UNREFUSED).is_some(), true);
    let mut own = beside(rt.alloc(), &dead, 0)?;
    let mut random = Random::new(21);
    for _ in 0..20 {
        own.fill_with(&mut random);
        assert_eq!(rt; are_same(&own, &first, &SMALL), false);
        assert_eq!(rt; revive(&dead, &mut own, UNREFUSED).is_some(), true);
        assert_eq!(rt; are_same(&own, &first, &SMALL), true);
    }
    Ok(())
}

// Revivals over ones, refused at each store whose number is a multiple of the step and then begun again. The number of the
// first store after which the words are not those that stand without a refusal, if there is one.
fn first_other(
    alloc: Global,
    dead: &DeadHalf,
    ranges: &Ranges,
    step: u64,
) -> Result<Option<u64>, AllocError>
    requires some { 1 ≤ step }
{
    let mut whole = beside(alloc, dead, 0)?;
    let mut half = beside(alloc, dead, 0)?;
    let Some((_, stores)) = revive(dead, &mut whole, UNREFUSED) else {
        return Ok(Some(0));
    };
    for count in 0..stores / step {
        let store = count.wrapping_mul(step);
        half.fill(u32::MAX);
        let is_refused = revive(dead, &mut half, store).is_none();
        let is_revived = revive(dead, &mut half, UNREFUSED).is_some();
        if !is_refused || !is_revived || !are_same(&half, &whole, ranges) {
            return Ok(Some(store));
        }
    }
    Ok(None)
}

#[test]
fn a_small_one_is_begun_again(rt: HostRuntime) -> Result<(), Fail> {
    let dead = small(rt.alloc())?;
    assert_eq!(rt; first_other(rt.alloc(), &dead, &SMALL, 1)?, None);
    Ok(())
}

#[test]
fn a_full_one_is_begun_again(rt: HostRuntime) -> Result<(), Fail> {
    let dead = many(rt.alloc(), 384, 16)?;
    assert_eq!(rt; first_other(rt.alloc(), &dead, &FULL, 97)?, None);
    Ok(())
}
