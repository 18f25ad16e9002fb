//! What changes the records of a running kernel.
ghost use Rattle.std.specs.Prelude.{◌≡◌, ◌⊎◌, false, true, OnOk, OnErr};

use crate::patch::PatchView;
use crate::view::RecordView;
use ow_base::Panicked;

/// The records of a kernel that runs, and the stores that change them.
///
/// Contracts see what is held: the records, the words of all frames beside the area, the disk and a rest, as
/// `held_by`. A call changes of this what its clauses say and nothing else. `Stands` says that the area is there and
/// its head decodes; each call that stores needs it and keeps it, at every answer. `Panicked` comes only where a store
/// was refused: then `refused` holds, and no further call that stores may be made. It comes only where `may_refuse` says
/// so of the rest, which no call changes. `made` counts stores: where none is counted at the end, none was before, and
/// all that is held is as it was. `of_memory` is a law: the records are of the words of a memory that has the whole area
/// and all user frames. `place` names what is borrowed, and never changes.
pub trait Writer: RecordView {
    ghost use Rattle.std.specs.Prelude.{ℕ, Bool, List};
    ghost use Rattle.std.specs.Borrow.{GName};
    ghost use Rattle.record_layouts.specs.Held.{IsBeside, IsCommittable, IsDirect, IsDirectFrame, IsPartly, StaysUnstored, copied, held_by, patched, stored, zeroed};
    ghost use Rattle.record_layouts.specs.Memory.{AreOfMemory};

    ghost Rest: { Type 0 };

    ghost rest: { Self → Rest };

    ghost disk: { Self → List (List ℕ) };

    ghost refused: { Self → Bool };

    ghost made: { Self → ℕ };

    ghost may_refuse: { Rest → Bool };

    ghost place: { Self → GName };

    ghost Stands: { Self → Type 0 };

    /// How many user frames there are.
    fn user_frames(&self) -> u32
        ensures { result ≡ (Self.records self.now).map.user_frames };

    /// How many data sectors the disk has.
    fn sectors(&self) -> u32
        ensures { result ≡ (Self.records self.now).map.sectors };

    /// Sets the records of a patch, all of them or, at `Panicked`, all or none. The data sectors of a file are there.
    fn commit(&mut self, patch: &PatchView<'_>) -> Result<(), Panicked>
        requires able { refused self.old ≡ false }
        requires stands { Stands self.old }
        requires patch { IsCommittable (Self.records self.old) patch.now }
        ensures ok { OnOk result (held_by Self.records Self.words disk rest self.new ≡ patched patch.now (held_by Self.records Self.words disk rest self.old)) }
        ensures err { OnErr result ((held_by Self.records Self.words disk rest self.new ≡ held_by Self.records Self.words disk rest self.old)
            ⊎ (held_by Self.records Self.words disk rest self.new ≡ patched patch.now (held_by Self.records Self.words disk rest self.old))) }
        ensures stays { OnOk result (refused self.new ≡ false) }
        ensures cause { OnErr result (refused self.new ≡ true) }
        ensures unstored { StaysUnstored (made self.old) (made self.new) (held_by Self.records Self.words disk rest self.old) (held_by Self.records Self.words disk rest self.new) }
        ensures allowed { OnErr result (may_refuse (rest self.old) ≡ true) }
        ensures still_stands { Stands self.new }
        ensures place { place self.new ≡ place self.old };

    /// Stores a word that is there and is neither of a record nor of the intent block.
    fn direct_word(&mut self, frame: u32, word: u32, value: u32) -> Result<(), Panicked>
        requires able { refused self.old ≡ false }
        requires stands { Stands self.old }
        requires direct { IsDirect (Self.records self.old) (Self.words self.old) frame word }
        ensures ok { OnOk result (held_by Self.records Self.words disk rest self.new ≡ stored (held_by Self.records Self.words disk rest self.old) frame word value) }
        ensures err { OnErr result (held_by Self.records Self.words disk rest self.new ≡ held_by Self.records Self.words disk rest self.old) }
        ensures stays { OnOk result (refused self.new ≡ false) }
        ensures cause { OnErr result (refused self.new ≡ true) }
        ensures unstored { StaysUnstored (made self.old) (made self.new) (held_by Self.records Self.words disk rest self.old) (held_by Self.records Self.words disk rest self.new) }
        ensures allowed { OnErr result (may_refuse (rest self.old) ≡ true) }
        ensures still_stands { Stands self.new }
        ensures place { place self.new ≡ place self.old };

    /// Copies a frame beside the area over another of which no word is of a record or of the intent block. At
    /// `Panicked` the first words are copied, up to one.
    fn copy_frame(&mut self, from: u32, to: u32) -> Result<(), Panicked>
        requires able { refused self.old ≡ false }
        requires stands { Stands self.old }
        requires from { IsBeside (Self.records self.old) (Self.words self.old) from }
        requires to { IsDirectFrame (Self.records self.old) (Self.words self.old) to }
        ensures ok { OnOk result (held_by Self.records Self.words disk rest self.new ≡ copied (held_by Self.records Self.words disk rest self.old) from to 1024) }
        ensures err { OnErr result (IsPartly (copied (held_by Self.records Self.words disk rest self.old) from to) (held_by Self.records Self.words disk rest self.new)) }
        ensures stays { OnOk result (refused self.new ≡ false) }
        ensures cause { OnErr result (refused self.new ≡ true) }
        ensures unstored { StaysUnstored (made self.old) (made self.new) (held_by Self.records Self.words disk rest self.old) (held_by Self.records Self.words disk rest self.new) }
        ensures allowed { OnErr result (may_refuse (rest self.old) ≡ true) }
        ensures still_stands { Stands self.new }
        ensures place { place self.new ≡ place self.old };

    /// Makes all words of a frame 0, of which no word is of a record or of the intent block. At `Panicked` the first
    /// words are 0, up to one.
    fn zero_frame(&mut self, frame: u32) -> Result<(), Panicked>
        requires able { refused self.old ≡ false }
        requires stands { Stands self.old }
        requires frame { IsDirectFrame (Self.records self.old) (Self.words self.old) frame }
        ensures ok { OnOk result (held_by Self.records Self.words disk rest self.new ≡ zeroed (held_by Self.records Self.words disk rest self.old) frame 1024) }
        ensures err { OnErr result (IsPartly (zeroed (held_by Self.records Self.words disk rest self.old) frame) (held_by Self.records Self.words disk rest self.new)) }
        ensures stays { OnOk result (refused self.new ≡ false) }
        ensures cause { OnErr result (refused self.new ≡ true) }
        ensures unstored { StaysUnstored (made self.old) (made self.new) (held_by Self.records Self.words disk rest self.old) (held_by Self.records Self.words disk rest self.new) }
        ensures allowed { OnErr result (may_refuse (rest self.old) ≡ true) }
        ensures still_stands { Stands self.new }
        ensures place { place self.new ≡ place self.old };

    ghost of_memory: { (writer : Self) → Stands writer → AreOfMemory (Self.records writer) (Self.words writer) };
}
