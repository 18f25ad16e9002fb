//! A revival: a kernel is built of what a panic left, and takes over.
ghost use Rattle.std.specs.Prelude.{◌≡◌, None, false, true, IfOk, OnErr, OnOk, Some};
ghost use Rattle.std.specs.List.{list_any};
ghost use Rattle.kernel_traps.specs.Plants.{IsSound, unix_at};
ghost use Rattle.ow_plant.specs.Points.{is_in};
ghost use Rattle.ow_plant.specs.declared.refusal.Refusal.TheVariants.{Store};
ghost use Rattle.phys_memory.specs.Halves.{words_beside};
ghost use Rattle.record_layouts.specs.Left.{HandedOver};
ghost use Rattle.resurrector.specs.Flights.{IsTapeLeft};
ghost use Rattle.schedule_runner.specs.Revivals.{IsBroken, dead_records, dead_words, fates_aborted, unix_aborted};

use kernel_takeover::take_over;
use ow_plant::{Panicked, Plant};
use resurrector::{Revival, resurrect};

/// Revives a plant on which a panic was entered that damaged nothing. It tells the fates of the processes that were live.
///
/// `Panicked` comes where a store is refused, which is only where a panic is to come in the trap that broke; then no other
/// area is live. At both answers every word of the dead kernel is as it was, and each tape is as it was or longer by its
/// byte in flight.
pub fn revive(plant: &mut Plant) -> Result<Revival, Panicked>
    requires reviving { plant.old.reviving ≡ true }
    requires able { plant.old.refusal ≡ None }
    requires broken { (h : HandedOver) × IsBroken plant.old h }
    ensures sound { OnOk result (IsSound plant.new) }
    ensures unix { (h : HandedOver) → IsBroken plant.old h → OnOk result (unix_at plant.new ≡ unix_aborted plant.old h) }
    ensures fates { (h : HandedOver) → IsBroken plant.old h → IfOk result (λ revival. revival.fates.items ≡ fates_aborted plant.old h) }
    ensures dead { words_beside plant.new.memory plant.old.live ≡ dead_words plant.old }
    ensures left0 { IsTapeLeft (dead_records plant.old) 0 plant.old.tty0.tape plant.new.tty0.tape }
    ensures left1 { IsTapeLeft (dead_records plant.old) 1 plant.old.tty1.tape plant.new.tty1.tape }
    ensures runs { OnOk result (plant.new.reviving ≡ false) }
    ensures reviving { OnErr result (plant.new.reviving ≡ true) }
    ensures cause { OnErr result (plant.new.refusal ≡ Some Store) }
    ensures allowed { OnErr result (list_any (is_in plant.old.traps) plant.old.points ≡ true) }
    ensures shape { plant.new.shape ≡ plant.old.shape }
    ensures points { plant.new.points ≡ plant.old.points }
    ensures history { plant.new.history ≡ plant.old.history }
    ensures steps { plant.new.steps ≡ plant.old.steps }
    ensures traps { plant.new.traps ≡ plant.old.traps }
{
    plant.fits_shape();
    let revival = resurrect(plant)?;
    take_over(plant)?;
    Ok(revival)
}
