//! What a new kernel begins with.
ghost use Rattle.std.specs.Prelude.{◌≡◌, ◌^◌, ◌<◌, Some, IfSome};

use ow_base::Rights;
use record_layouts::{AnyRec, RecordId};

/// Where a page is: the number of its user frame, and what a program may do with it.
#[derive(Clone, Copy, Debug, PartialEq, Eq)]
pub struct Placed {
    pub frame: u32,
    pub rights: Rights,
}

/// The page that a user frame holds.
#[derive(Clone, Copy, Debug, PartialEq, Eq)]
pub struct Holder {
    pub slot: u32,
    pub page: u32,
}

/// What a new kernel begins with.
///
/// Contracts see it as a plan. `stands` is what makes its answers right: that a load can boot, say.
pub trait Blueprint {
    ghost use Rattle.std.specs.Prelude.{ℕ};
    ghost use Rattle.record_layouts.specs.Patch.{FitsAny, IsOfKind};
    ghost use Rattle.record_layouts.specs.Places.{IsRecordId};
    ghost use Rattle.kernel_builder.specs.Plan.{Plan};

    ghost plan: { Self → Plan };

    // how many user frames it is for
    ghost frames: { Self → ℕ };

    ghost stands: { Self → Type 0 };

    /// The record with this id.
    fn record(&self, id: RecordId) -> AnyRec
        requires stands { stands self.now }
        requires id { IsRecordId id }
        ensures is { result ≡ (plan self.now).record_of id }
        ensures kind { IsOfKind id result }
        ensures fits { FitsAny result };

    /// A slot has tables.
    fn is_live(&self, slot: u32) -> bool
        requires stands { stands self.now }
        requires slot { slot < 16 }
        ensures { result ≡ (plan self.now).is_live slot };

    /// Where a page of a slot is.
    fn page(&self, slot: u32, page: u32) -> Option<Placed>
        requires stands { stands self.now }
        requires slot { slot < 16 }
        requires page { page < 2 ^ 19 }
        ensures is { result ≡ (plan self.now).page_at slot page }
        ensures fits { IfSome result (λ placed. placed.frame < frames self.now) };

    /// What a user frame holds.
    fn holder(&self, frame: u32) -> Option<Holder>
        requires stands { stands self.now }
        requires frame { frame < 384 }
        ensures is { result ≡ (plan self.now).holder frame }
        ensures fits { IfSome result (λ holder. (holder.slot < 16) × (holder.page < 2 ^ 19)) };

    /// A word of the page that a user frame holds.
    fn page_word(&self, frame: u32, holder: Holder, word: u32) -> u32
        requires stands { stands self.now }
        requires frame { frame < 384 }
        requires held { (plan self.now).holder frame ≡ Some holder }
        requires slot { holder.slot < 16 }
        requires page { holder.page < 2 ^ 19 }
        requires word { word < 1024 }
        ensures { result ≡ (plan self.now).word_at holder.slot holder.page word };
}
