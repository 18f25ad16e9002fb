//! Bytes in flight: the dead kernel counts them as written, and their device has not written them.
ghost use Rattle.std.specs.Prelude.{◌≡◌, ◌+◌, ◌<◌, ◌≤◌, length, None, Some, OnOk, OnErr, true};
ghost use Rattle.std.specs.List.{list_any};
ghost use Rattle.dead_reader.specs.Left.{records_left};
ghost use Rattle.ow_plant.specs.Lent.{lent_tty};
ghost use Rattle.ow_plant.specs.Owning.{own_words};
ghost use Rattle.ow_plant.specs.Points.{is_in};
ghost use Rattle.ow_plant.specs.declared.refusal.Refusal.TheVariants.{Store};
ghost use Rattle.resurrector.specs.Counts.{most_flights};
ghost use Rattle.resurrector.specs.Flights.{HasFlightRoom, LeavesFlight, LeavesFlights, tape_put};

use dead_reader::{DeadMemory, DeadView};
use ow_base::Panicked;
use ow_plant::Own;

// Puts the byte in flight of a terminal, 0 or 1, where there is one.
fn put_in_flight<M: DeadMemory>(dead: &M, own: &mut Own<'_>, tty: u32) -> Result<(), Panicked>
    requires tty { tty < 2 }
    requires able { own.old.lent.now.refusal ≡ None }
    requires counted { (M.dead dead.now).counts tty ≡ length (lent_tty own.old.lent.now tty).tape }
    requires room { HasFlightRoom (records_left (M.dead dead.now) (M.words dead.now)) tty (lent_tty own.old.lent.now tty) }
    ensures put { OnOk result ((lent_tty own.new.lent.now tty).tape ≡ tape_put (records_left (M.dead dead.now) (M.words dead.now)) tty (lent_tty own.old.lent.now tty).tape) }
    ensures only { LeavesFlight (records_left (M.dead dead.now) (M.words dead.now)) tty own.old.lent.now own.new.lent.now }
    ensures stays { OnOk result (own.new.lent.now.refusal ≡ None) }
    ensures cause { OnErr result (own.new.lent.now.refusal ≡ Some Store) }
    ensures counted { own.new.lent.now.stores ≤ own.old.lent.now.stores + 1 }
    ensures allowed { OnErr result (list_any (is_in own.old.place.trap) own.old.place.points.now ≡ true) }
    ensures place { own.new.place ≡ own.old.place }
    ensures same_reference { own.new.lent.ghost_name ≡ own.old.lent.ghost_name }
{
    match DeadView::new(dead).in_flight(tty) {
        Some(byte) => own.put(tty, byte),
        None => Ok(()),
    }
}

/// Puts the bytes in flight of both terminals, where there are any. It comes before the displays are painted. `Panicked`
/// comes where a store is refused; then each tape is as it was or longer by its byte.
#[tactic(auto, using(crate::proofs::InFlight::first_flight, crate::proofs::InFlight::both_flights, crate::proofs::InFlight::tape_first, crate::proofs::InFlight::tape_later, crate::proofs::InFlight::count_stays))]
pub(crate) fn put_all_in_flight<M: DeadMemory>(dead: &M, own: &mut Own<'_>) -> Result<(), Panicked>
    requires able { own.old.lent.now.refusal ≡ None }
    requires counted0 { (M.dead dead.now).counts 0 ≡ length own.old.lent.now.tty0.tape }
    requires counted1 { (M.dead dead.now).counts 1 ≡ length own.old.lent.now.tty1.tape }
    requires room0 { HasFlightRoom (records_left (M.dead dead.now) (M.words dead.now)) 0 own.old.lent.now.tty0 }
    requires room1 { HasFlightRoom (records_left (M.dead dead.now) (M.words dead.now)) 1 own.old.lent.now.tty1 }
    ensures put0 { OnOk result (own.new.lent.now.tty0.tape ≡ tape_put (records_left (M.dead dead.now) (M.words dead.now)) 0 own.old.lent.now.tty0.tape) }
    ensures put1 { OnOk result (own.new.lent.now.tty1.tape ≡ tape_put (records_left (M.dead dead.now) (M.words dead.now)) 1 own.old.lent.now.tty1.tape) }
    ensures words { own_words own.new ≡ own_words own.old }
    ensures only { LeavesFlights (records_left (M.dead dead.now) (M.words dead.now)) own.old.lent.now own.new.lent.now }
    ensures stays { OnOk result (own.new.lent.now.refusal ≡ None) }
    ensures cause { OnErr result (own.new.lent.now.refusal ≡ Some Store) }
    ensures counted { own.new.lent.now.stores ≤ own.old.lent.now.stores + most_flights }
    ensures allowed { OnErr result (list_any (is_in own.old.place.trap) own.old.place.points.now ≡ true) }
    ensures place { own.new.place ≡ own.old.place }
    ensures same_reference { own.new.lent.ghost_name ≡ own.old.lent.ghost_name }
{
    put_in_flight(dead, own, 0)?;
    put_in_flight(dead, own, 1)
}
