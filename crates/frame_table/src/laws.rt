//! What holds of the frames of all records. The functions do nothing: their contracts are the laws.

ghost use Rattle.std.specs.Prelude.{◌≡◌, ℕ, ◌+◌, ◌^◌, ◌<◌, ◌≤◌, true, Some};
ghost use Rattle.ow_base.specs.Sv32.{WordMap, pages_by};
ghost use Rattle.sv32_tables.specs.Spaces.{IsMapped, pages_in, satp_of};
ghost use Rattle.record_layouts.specs.declared.proc.ProcRec.{ProcRec};
ghost use Rattle.record_layouts.specs.Held.{AreValues, Records};
ghost use Rattle.record_layouts.specs.Memory.{AreOfMemory};
ghost use Rattle.record_layouts.specs.Pages.{frame_of, is_mapped, page_frame_of, page_total, pages_of, table_frame};
ghost use Rattle.record_layouts.specs.Proc.{FitsProc};
ghost use Rattle.record_layouts.specs.Sound.{AreMapped, HaveFrames, IsIn};
ghost use Rattle.frame_table.specs.Counts.{pages_held, pages_of_all};
ghost use Rattle.frame_table.specs.Free.{free_before};
ghost use Rattle.frame_table.specs.Maps.{framed_pages, map_of};

/// No frame is that of two pages, of one process or of two.
#[tactic(auto, using(crate::proofs::Found::one_page_each, crate::proofs::Found::one_page_in_slots))]
pub const fn frames_lie_apart()
    ensures processes { (r : Records) (slot other page another frame : ℕ) (process its : ProcRec)
        → page < 2 ^ 20 → another < 2 ^ 20
        → frame_of r slot process page ≡ Some frame → frame_of r other its another ≡ Some frame
        → (slot ≡ other) × (page ≡ another) }
    ensures slots { (r : Records) (slot other page another frame : ℕ)
        → page < 2 ^ 20 → another < 2 ^ 20
        → page_frame_of r slot page ≡ Some frame → page_frame_of r other another ≡ Some frame
        → (slot ≡ other) × (page ≡ another) }
{}

/// The number of pages of a process is how many its regions hold. They hold none behind the stack.
#[tactic(auto, using(crate::proofs::Counting::all_held))]
pub const fn pages_are_counted()
    ensures { (process : ProcRec) (count : ℕ) → FitsProc process → 2 ^ 19 ≤ count
        → pages_held process count ≡ page_total process }
{}

/// The tables of a live process lead where its pages lie, and to nothing else. So what a program has by these tables is
/// the pages of the process.
#[tactic(auto, using(crate::proofs::Tables::tables_mapped, crate::proofs::Tables::pages_by_tables))]
pub const fn tables_lead_to_pages()
    ensures tables { (r : Records) (words : WordMap) (slot : ℕ) (process : ProcRec)
        → AreOfMemory r words → AreMapped r → IsIn r slot process → FitsProc process
        → IsMapped words (r.map.area_base + table_frame slot 0) (map_of r slot process) }
    ensures pages { (r : Records) (words : WordMap) (slot : ℕ) (process : ProcRec)
        → AreOfMemory r words → AreMapped r → IsIn r slot process → FitsProc process
        → pages_by words (satp_of (r.map.area_base + table_frame slot 0)) ≡ pages_of r words slot process }
{}

/// Where each page of a process has a frame, the pages that have frames are the pages of the process.
#[tactic(auto, using(crate::proofs::Tables::pages_same, crate::proofs::Tables::framed_same))]
pub const fn mapped_pages_have_frames()
    ensures map { (r : Records) (words : WordMap) (slot : ℕ) (process : ProcRec)
        → is_mapped r slot process ≡ true
        → pages_in (map_of r slot process) words ≡ pages_of r words slot process }
    ensures slot { (r : Records) (words : WordMap) (slot : ℕ) (process : ProcRec)
        → r.procs slot ≡ Some process → is_mapped r slot process ≡ true
        → framed_pages r words slot ≡ pages_of r words slot process }
{}

/// Where each page of each live process has a frame, the free user frames and the pages are all user frames.
pub const fn frames_are_free_or_pages()
    ensures { (r : Records) (words : WordMap) → AreOfMemory r words → AreValues r → HaveFrames r
        → free_before r r.map.user_frames + pages_of_all r 16 ≡ r.map.user_frames }
{}
