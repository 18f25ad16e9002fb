//! The resurrection of a kernel on the plant on which one panicked.
ghost use Rattle.std.specs.Prelude.{◌≡◌, ℕ, ◌+◌, ◌<◌, ◌≤◌, true, length, None, Some, OnOk, OnErr, IfOk};
ghost use Rattle.std.specs.List.{list_any};
ghost use Rattle.dead_reader.specs.Left.{records_left};
ghost use Rattle.kernel_builder.specs.Plan.{HasFrames};
ghost use Rattle.kernel_builder.specs.Reading.{IsReadAs};
ghost use Rattle.kernel_builder.specs.Sets.{IsBuilt};
ghost use Rattle.ow_plant.specs.Lent.{lent_of, with_lent};
ghost use Rattle.ow_plant.specs.Owning.{left_by, own_words};
ghost use Rattle.ow_plant.specs.Points.{is_in};
ghost use Rattle.ow_plant.specs.declared.refusal.Refusal.TheVariants.{Store};
ghost use Rattle.ow_plant.specs.State.{IsArmed, tty_of};
ghost use Rattle.phys_memory.specs.Halves.{words_beside};
ghost use Rattle.record_layouts.specs.Reading.{FitsMap, records_of};
ghost use Rattle.record_layouts.specs.Terminals.{ShowsScreen};
ghost use Rattle.resurrector.specs.Counts.{most_stores};
ghost use Rattle.resurrector.specs.Flights.{HasFlightRoom, IsTapeLeft, tape_put};
ghost use Rattle.resurrector.specs.Plants.{own_map, own_words_in};
ghost use Rattle.resurrector.specs.Revived.{fates_left, plan_of};

use crate::flights::put_all_in_flight;
use crate::painting::paint_terminals;
use crate::resurrecting::{Revival, resurrect_into};
use ow_base::{AreaId, Panicked};
use ow_plant::{DeadMemory, Own, Plant};
use record_layouts::MemoryMap;

// Where the frames of the kernel are that takes over.
fn own_map<M: DeadMemory>(dead: &M) -> MemoryMap
    ensures map { result ≡ own_map (M.dead dead.now) }
    ensures fits { FitsMap result }
{
    let area = match dead.area() {
        AreaId::A => AreaId::B,
        AreaId::B => AreaId::A,
    };
    MemoryMap::of_area(area, dead.user_frames(), dead.sectors())
}

// Builds the kernel that takes over in what is lent, puts the bytes in flight, and paints the displays.
fn resurrect_lent<M: DeadMemory>(dead: &M, own: &mut Own<'_>) -> Result<Revival, Panicked>
    requires able { own.old.lent.now.refusal ≡ None }
    requires frames { HasFrames (own_words own.old) (own_map (M.dead dead.now)) }
    requires long0 { length own.old.lent.now.tty0.display.rows ≡ 24 }
    requires long1 { length own.old.lent.now.tty1.display.rows ≡ 24 }
    requires counted0 { (M.dead dead.now).counts 0 ≡ length own.old.lent.now.tty0.tape }
    requires counted1 { (M.dead dead.now).counts 1 ≡ length own.old.lent.now.tty1.tape }
    requires room0 { HasFlightRoom (records_left (M.dead dead.now) (M.words dead.now)) 0 own.old.lent.now.tty0 }
    requires room1 { HasFlightRoom (records_left (M.dead dead.now) (M.words dead.now)) 1 own.old.lent.now.tty1 }
    ensures built { OnOk result (IsBuilt (own_map (M.dead dead.now)) (plan_of (M.dead dead.now) (M.words dead.now)) (own_words own.old) (own_words own.new)) }
    ensures read { OnOk result (IsReadAs (own_map (M.dead dead.now)) (plan_of (M.dead dead.now) (M.words dead.now)) (own_words own.new)) }
    ensures fates { IfOk result (λ revival. revival.fates.items ≡ fates_left (M.dead dead.now) (M.words dead.now)) }
    ensures size { length own.new.lent.now.own ≡ length own.old.lent.now.own }
    ensures budget { own.new.lent.now.budget ≡ own.old.lent.now.budget }
    ensures shown0 { OnOk result (ShowsScreen (records_of (own_map (M.dead dead.now)) (own_words own.new)) 0 own.new.lent.now.tty0.display) }
    ensures shown1 { OnOk result (ShowsScreen (records_of (own_map (M.dead dead.now)) (own_words own.new)) 1 own.new.lent.now.tty1.display) }
    ensures tape0 { OnOk result (own.new.lent.now.tty0.tape ≡ tape_put (records_left (M.dead dead.now) (M.words dead.now)) 0 own.old.lent.now.tty0.tape) }
    ensures left0 { IsTapeLeft (records_left (M.dead dead.now) (M.words dead.now)) 0 own.old.lent.now.tty0.tape own.new.lent.now.tty0.tape }
    ensures room0 { own.new.lent.now.tty0.room ≡ own.old.lent.now.tty0.room }
    ensures tape1 { OnOk result (own.new.lent.now.tty1.tape ≡ tape_put (records_left (M.dead dead.now) (M.words dead.now)) 1 own.old.lent.now.tty1.tape) }
    ensures left1 { IsTapeLeft (records_left (M.dead dead.now) (M.words dead.now)) 1 own.old.lent.now.tty1.tape own.new.lent.now.tty1.tape }
    ensures room1 { own.new.lent.now.tty1.room ≡ own.old.lent.now.tty1.room }
    ensures stays { OnOk result (own.new.lent.now.refusal ≡ None) }
    ensures cause { OnErr result (own.new.lent.now.refusal ≡ Some Store) }
    ensures counted { own.new.lent.now.stores ≤ own.old.lent.now.stores + most_stores (M.dead dead.now).user_frames }
    ensures allowed { OnErr result (list_any (is_in own.old.place.trap) own.old.place.points.now ≡ true) }
    ensures place { own.new.place ≡ own.old.place }
    ensures same_reference { own.new.lent.ghost_name ≡ own.old.lent.ghost_name }
{
    let map = own_map(dead);
    let revival = resurrect_into(dead, own, &map)?;
    put_all_in_flight(dead, own)?;
    paint_terminals(own, &map)?;
    Ok(revival)
}

/// Builds a kernel that can go on from what the one has left that panicked on a plant, in the half of memory that is not
/// live, puts the bytes in flight on their terminals, and paints both displays from its records. It tells the fates of the
/// processes that were live. A tape must have room for its byte in flight.
///
/// `Panicked` comes where a store is refused, which is only where a panic is to come in the trap that was begun last; then
/// each tape is as it was or longer by its byte in flight. At both answers every word of the dead kernel is as it was, and
/// no more stores were made than `few` says.
pub fn resurrect(plant: &mut Plant) -> Result<Revival, Panicked>
    requires armed { IsArmed plant.old }
    requires reviving { plant.old.reviving ≡ true }
    requires able { plant.old.refusal ≡ None }
    requires room { (tty : ℕ) → tty < 2 → HasFlightRoom (records_left (left_by plant.old) (words_beside plant.old.memory plant.old.live)) tty (tty_of plant.old tty) }
    ensures built { OnOk result (IsBuilt (own_map (left_by plant.old)) (plan_of (left_by plant.old) (words_beside plant.old.memory plant.old.live)) (own_words_in plant.old) (own_words_in plant.new)) }
    ensures read { OnOk result (IsReadAs (own_map (left_by plant.old)) (plan_of (left_by plant.old) (words_beside plant.old.memory plant.old.live)) (own_words_in plant.new)) }
    ensures fates { IfOk result (λ revival. revival.fates.items ≡ fates_left (left_by plant.old) (words_beside plant.old.memory plant.old.live)) }
    ensures dead { words_beside plant.new.memory plant.old.live ≡ words_beside plant.old.memory plant.old.live }
    ensures shown0 { OnOk result (ShowsScreen (records_of (own_map (left_by plant.old)) (own_words_in plant.new)) 0 plant.new.tty0.display) }
    ensures shown1 { OnOk result (ShowsScreen (records_of (own_map (left_by plant.old)) (own_words_in plant.new)) 1 plant.new.tty1.display) }
    ensures tape0 { OnOk result (plant.new.tty0.tape ≡ tape_put (records_left (left_by plant.old) (words_beside plant.old.memory plant.old.live)) 0 plant.old.tty0.tape) }
    ensures left0 { IsTapeLeft (records_left (left_by plant.old) (words_beside plant.old.memory plant.old.live)) 0 plant.old.tty0.tape plant.new.tty0.tape }
    ensures room0 { plant.new.tty0.room ≡ plant.old.tty0.room }
    ensures tape1 { OnOk result (plant.new.tty1.tape ≡ tape_put (records_left (left_by plant.old) (words_beside plant.old.memory plant.old.live)) 1 plant.old.tty1.tape) }
    ensures left1 { IsTapeLeft (records_left (left_by plant.old) (words_beside plant.old.memory plant.old.live)) 1 plant.old.tty1.tape plant.new.tty1.tape }
    ensures room1 { plant.new.tty1.room ≡ plant.old.tty1.room }
    ensures shape { plant.new.shape ≡ plant.old.shape }
    ensures rest { plant.new ≡ with_lent plant.old (lent_of plant.new) }
    ensures armed { IsArmed plant.new }
    ensures stays { OnOk result (plant.new.refusal ≡ None) }
    ensures cause { OnErr result (plant.new.refusal ≡ Some Store) }
    ensures few { plant.new.stores ≤ plant.old.stores + most_stores plant.old.shape.user_frames }
    ensures allowed { OnErr result (list_any (is_in plant.old.traps) plant.old.points ≡ true) }
{
    // That a display has 24 rows is known from its calls alone.
    plant.display(0).at();
    plant.display(1).at();
    let (dead, own) = plant.resurrection();
    let Own { lent, place } = own;
    let mut own = Own { lent, place };
    let revival = resurrect_lent(&dead, &mut own);
    // With this all that was lent is given back, so that the plant is known again.
    drop(dead);
    revival
}
