//! Records are set together.
ghost use Rattle.std.specs.Prelude.{◌≡◌, ◌⊎◌, true, OnOk, OnErr};
ghost use Rattle.record_layouts.specs.Held.{beside};
ghost use Rattle.record_layouts.specs.Overlay.{HasArea, area_at, gate_of};
ghost use Rattle.record_layouts.specs.Patch.{IsPatch};
ghost use Rattle.record_layouts.specs.Reading.{is_readable_gate};
ghost use Rattle.intent_store.specs.Blocks.{IsSeenAs, IsSeenSet};
ghost use Rattle.ow_plant.specs.declared.refusal.Refusal.TheVariants.{Store};
ghost use Rattle.word_store.specs.Stores.{KeepsUnstored};

use crate::copying::{carry_out, roll_forward};
use crate::opening::open;
use ow_base::Panicked;
use record_layouts::PatchView;
use word_store::WordStore;

/// Sets the records of a patch in the area that begins at frame `base`, of which no intent is open then.
///
/// An intent that is open before is carried out first. At `Panicked` all records of the patch are set or none.
pub(crate) fn commit<W: WordStore>(
    store: &mut W,
    base: u32,
    patch: &PatchView<'_>,
) -> Result<(), Panicked>
    requires able { W.able store.old ≡ true }
    requires area { HasArea (W.words store.old) base }
    requires readable { is_readable_gate (gate_of (area_at (W.words store.old) base)) ≡ true }
    requires patch { IsPatch patch.now }
    ensures ok { OnOk result (IsSeenSet patch.now (area_at (W.words store.old) base) (area_at (W.words store.new) base)) }
    ensures shut { OnOk result (area_at (W.words store.new) base 16 ≡ 0) }
    ensures err { OnErr result (IsSeenAs (area_at (W.words store.old) base) (area_at (W.words store.new) base)
        ⊎ IsSeenSet patch.now (area_at (W.words store.old) base) (area_at (W.words store.new) base)) }
    ensures there { HasArea (W.words store.new) base }
    ensures beside { beside base (W.words store.new) ≡ beside base (W.words store.old) }
    ensures rest { W.rest store.new ≡ W.rest store.old }
    ensures stays { OnOk result (W.able store.new ≡ true) }
    ensures cause { OnErr result (W.refusal store.new ≡ Some Store) }
    ensures unstored { KeepsUnstored (W.made store.old) (W.made store.new) (W.words store.old) (W.words store.new) }
    ensures allowed { OnErr result (W.may_refuse (W.rest store.old) ≡ true) }
    ensures place { W.place store.new ≡ W.place store.old }
{
    roll_forward(store, base)?;
    if patch.is_empty() {
        return Ok(());
    }
    let end = open(store, base, patch)?;
    carry_out(store, base, end)
}
