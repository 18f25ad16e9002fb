//! Where the records of an area lie.
ghost use Rattle.std.specs.Prelude.{◌≡◌, ◌≢◌, ◌+◌, ◌*◌, ◌<◌, true};
ghost use Rattle.record_layouts.specs.Overlay.{may_change};
ghost use Rattle.record_layouts.specs.Places.{AreApart, IsRecordId, first_word, length_of};
ghost use Rattle.record_layouts.specs.declared.places.RecordId.{RecordId};

use ow_base::FRAME_WORDS;

/// Which record of an area.
///
/// There is one head. Process and signal records have the number of their slot, 0 to 15, open descriptions and files
/// theirs, 0 to 31, cache records their entry's, 0 to 63, and terminals 0 or 1. Row records go from 0 to 47: 24 for
/// each terminal. Exit records have the pid, 1 to 256.
#[derive(Clone, Copy, Debug, PartialEq, Eq)]
pub enum RecordId {
    Head,
    Proc(u32),
    Sig(u32),
    Desc(u32),
    File(u32),
    Cache(u32),
    Term(u32),
    Row(u32),
    Exit(u32),
}

/// Where the first word of a record is: the frame, counted from the first of the area, and the place in it. The others
/// follow it, for file and row records also into the next frame.
pub fn address(id: RecordId) -> (u32, u32)
    requires { IsRecordId id }
    ensures number { FRAME_WORDS * result.0 + result.1 ≡ first_word id }
    ensures place { result.1 < FRAME_WORDS }
{
    let (frame, words) = match id {
        RecordId::Head => (0, 0),
        RecordId::Proc(slot) => (1, 128 * slot),
        RecordId::Sig(slot) => (3, 32 * slot),
        RecordId::Desc(index) => (3, 32 * 16 + 16 * index),
        RecordId::File(index) => (4, 96 * index),
        RecordId::Cache(index) => (7, 8 * index),
        RecordId::Term(terminal) => (7, 8 * 64 + 16 * terminal),
        RecordId::Row(index) => (8, 24 * index),
        RecordId::Exit(pid) => (11, 4 * (pid - 1)),
    };
    (frame + words / FRAME_WORDS, words % FRAME_WORDS)
}

/// A law; the function does nothing. No two records of an area share a word, and an intent may change each of them.
pub const fn records_lie_apart()
    ensures apart { (one other : RecordId) → IsRecordId one → IsRecordId other → one ≢ other → AreApart one other }
    ensures changed { (id : RecordId) → IsRecordId id → may_change (first_word id) (first_word id + length_of id) ≡ true }
{}
