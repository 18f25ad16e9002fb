//! What leaves the pages of all live processes, and so the free frames, as they are. The functions do nothing: their
//! contracts are the laws.

ghost use Rattle.std.specs.Prelude.{◌≡◌, ℕ, ◌+◌, ◌<◌, Bool, true, false};
ghost use Rattle.record_layouts.specs.declared.proc.ProcRec.{ProcRec};
ghost use Rattle.record_layouts.specs.Held.{Held, Records, is_of_area, stored, with_owner_words, with_table_words, with_words};
ghost use Rattle.record_layouts.specs.Pages.{pages_of, table_frame};
ghost use Rattle.record_layouts.specs.Proc.{FitsProc};
ghost use Rattle.record_layouts.specs.Sound.{IsIn};
ghost use Rattle.frame_table.specs.Free.{ClaimsNone, KeepsFrames, KeepsPages, free_before, is_free_frame, is_table_word_of, nth_free};

use record_layouts::Writer;

/// Owner words of free frames that claim no page that counts, and words of tables that do not count, may be set to
/// anything: each page lies where it lay.
#[tactic(auto, using(crate::proofs::Keeping::owners_keep, crate::proofs::Keeping::tables_keep))]
pub const fn uncounted_words_move_no_page()
    ensures owners { (r : Records) (hit : ℕ → Bool) (value : ℕ → ℕ)
        → ((i : ℕ) → hit i ≡ true → is_free_frame r i ≡ true) → ((i : ℕ) → hit i ≡ true → ClaimsNone r (value i))
        → KeepsFrames r (with_owner_words r hit value) }
    ensures tables { (r : Records) (frame : ℕ) (hit : ℕ → Bool) (value : ℕ → ℕ)
        → ((slot table word : ℕ) → slot < 16 → table < 3 → word < 1024 → table_frame slot table ≡ frame → hit word ≡ true
        → is_table_word_of table word (r.procs slot) ≡ false)
        → KeepsFrames r (with_table_words r frame hit value) }
{}

/// Where each page lies where it lay, the same frames are free, and the free one before which so many are free is the
/// same.
#[tactic(auto, using(crate::proofs::Kept::free_same, crate::proofs::Kept::before_kept, crate::proofs::Kept::nth_kept))]
pub const fn kept_frames_are_free_as_before()
    ensures free { (r new : Records) (number : ℕ) → KeepsFrames r new → is_free_frame new number ≡ is_free_frame r number }
    ensures count { (r new : Records) (count : ℕ) → KeepsFrames r new → free_before new count ≡ free_before r count }
    ensures nth { (r new : Records) (user_frames i : ℕ) → KeepsFrames r new
        → nth_free new user_frames i ≡ nth_free r user_frames i }
{}

/// One store of an owner word, of a word of a table, or any stores to the words of a free frame change no page of a live
/// process, where the words are none that count.
#[tactic(auto, using(crate::proofs::Kept::owner_stored, crate::proofs::Kept::table_stored, crate::proofs::Kept::frame_words))]
pub const fn uncounted_stores_change_no_page<W: Writer>()
    ensures owner { (h : Held W.Rest) (i value : ℕ)
        → is_free_frame h.records i ≡ true → ClaimsNone h.records value
        → KeepsPages h (stored h (h.records.map.area_base + 10) i value) }
    ensures table { (h : Held W.Rest) (slot table word value : ℕ) → slot < 16 → table < 3
        → is_table_word_of table word (h.records.procs slot) ≡ false
        → KeepsPages h (stored h (h.records.map.area_base + table_frame slot table) word value) }
    ensures frame { (h : Held W.Rest) (number : ℕ) (hit : ℕ → Bool) (value : ℕ → ℕ)
        → is_free_frame h.records number ≡ true → is_of_area h.records.map.area_base (h.records.map.pool_base + number) ≡ false
        → KeepsPages h (with_words h (h.records.map.pool_base + number) hit value) }
{}

/// What changes no page of a live process leaves the bytes and the rights of each such process, and so does what does
/// this again and again.
#[tactic(auto, using(crate::proofs::Kept::pages_kept, crate::proofs::Kept::pages_on))]
pub const fn kept_pages_have_their_bytes<W: Writer>()
    ensures pages { (h new : Held W.Rest) (slot : ℕ) (process : ProcRec) → KeepsPages h new
        → IsIn h.records slot process → FitsProc process
        → pages_of new.records new.contents slot process ≡ pages_of h.records h.contents slot process }
    ensures again { (h middle new : Held W.Rest) → KeepsPages h middle → KeepsPages middle new → KeepsPages h new }
{}
