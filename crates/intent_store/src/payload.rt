//! How long the payload is with which an intent spells the records that it sets.
ghost use Rattle.std.specs.Prelude.{◌≡◌, ◌≤◌, ℕ, List, length};
ghost use Rattle.record_layouts.specs.Places.{length_of};
ghost use Rattle.intent_store.specs.Payloads.{IsPayload};

use record_layouts::{PatchView, RecordId};

// The words of a range before those that it spells: its frame, its place in it, and how many words it spells.
const RANGE_HEAD: u32 = 3;

/// How many words a record has.
pub(crate) fn length_of(id: RecordId) -> u32
    ensures { result ≡ length_of id }
{
    match id {
        RecordId::Head | RecordId::Desc(_) | RecordId::Term(_) => 16,
        RecordId::Proc(_) => 128,
        RecordId::Sig(_) => 32,
        RecordId::File(_) => 96,
        RecordId::Cache(_) => 8,
        RecordId::Row(_) => 24,
        RecordId::Exit(_) => 4,
    }
}

/// How many words the payload has that sets the records of a patch. They fit in the block.
pub(crate) fn payload_length(patch: &PatchView<'_>) -> u32
    ensures exact { (payload : List ℕ) → IsPayload patch.now payload → length payload ≡ result }
    ensures fits { result ≤ 1006 }
{
    let mut length = 0;
    for part in patch.parts() {
        length += RANGE_HEAD + length_of(part.id);
    }
    length
}
