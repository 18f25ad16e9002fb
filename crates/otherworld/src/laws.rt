//! What holds of runs as a whole, and of what is answered to a text.

ghost use Rattle.std.specs.Prelude.{◌≡◌, ℕ, List, ◌⊎◌};
ghost use Rattle.record_layouts.specs.Unix.Panics.{Images, RunWith};
ghost use Rattle.record_layouts.specs.Unix.State.{Unix};
ghost use Rattle.record_layouts.specs.declared.fates.Fate.{Fate};
ghost use Rattle.ow_base.specs.World.{IsWorld};
ghost use Rattle.ow_base.specs.declared.worlds.World.{World};
ghost use Rattle.ow_base.specs.declared.worlds.Ending.{Ending};
ghost use Rattle.ow_base.specs.declared.worlds.PanicRecord.{PanicRecord};
ghost use Rattle.world_file.specs.WorldRefusals.{IsBuilt, IsRefused};
ghost use Rattle.world_file.specs.declared.why.Why.{Why};
ghost use Rattle.otherworld.specs.declared.top.Status.{Status};
ghost use Rattle.otherworld.specs.declared.top.Status.TheVariants.{BadWorld, Memory};
ghost use Rattle.otherworld.specs.Top.{MayAnswer, IsCalm, status_of};

/// A world, what the entries of a history stand for, and this history have at most one run: one list of fates, one
/// ending, and one state that it leaves.
pub fn one_run()
    ensures { (world : World) (images : Images) (history : List PanicRecord) (some other : List (List (ℕ × Fate)))
        (a b : Ending) (v w : Unix) → RunWith world images history some a v → RunWith world images history other b w →
        (some ≡ other) × (a ≡ b) × (v ≡ w) }
{
    panic_rows::one_run();
}

/// Only a text of a world of the forms that can be read is run, and only one that is refused, which is of no such
/// world, is answered BadWorld. Where source and sink do not fail, each such text is run and each other refused,
/// unless memory runs out.
pub fn built_worlds_alone_run()
    // Done and Budget say that the text is of a world of these forms.
    ensures ran { (input : List ℕ) (ending : Ending) → MayAnswer input (status_of ending)
        → (world : World) × IsWorld input world × IsBuilt world }
    // BadWorld says that the text is refused, at this line for this reason.
    ensures refused { (input : List ℕ) (number : ℕ) (why : Why) → MayAnswer input (BadWorld number why) → IsRefused input number why }
    // A text of such a world is run.
    ensures runs { (input : List ℕ) (world : World) (answer : Status) (may : MayAnswer input answer) → IsCalm may → IsWorld input world → IsBuilt world
        → ((ending : Ending) × (answer ≡ status_of ending)) ⊎ (answer ≡ Memory) }
    // A text that is refused is answered so.
    ensures refuses { (input : List ℕ) (number : ℕ) (why : Why) (answer : Status) (may : MayAnswer input answer) → IsCalm may → IsRefused input number why
        → (answer ≡ BadWorld number why) ⊎ (answer ≡ Memory) }
{}
