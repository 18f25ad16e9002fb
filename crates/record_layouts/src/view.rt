//! What the kernels read of their records, and what changes them.
ghost use Rattle.std.specs.Prelude.{◌≡◌, ◌+◌, ◌^◌, ◌<◌, ◌≤◌, IfSome};

use crate::cache::CacheRec;
use crate::desc::DescRec;
use crate::exit::ExitRec;
use crate::file::FileRec;
use crate::head::HeadRec;
use crate::proc::{IN_CALL, OUTSIDE, ProcRec};
use crate::row::RowRec;
use crate::sig::SigRec;
use crate::term::TermRec;
use ow_base::WordSource;

/// The records of an area, of a kernel that runs or of one that is dead.
///
/// Contracts see them as `Records`. A getter answers `None` exactly where the words of the record are the record of no
/// value, and for a file also where one of its data sectors is none of the disk; a record that it gives is one that can
/// be spelled. Each number that it is handed is one of the layout's: a slot is below 16, a description or file below
/// 32, a cache entry below 64, a terminal below 2, a row below 48, and a pid 1 to 256. Frames are frames of memory, but
/// that `owner` and `cache_owner` count user frames and cache entries from 0.
pub trait RecordView: WordSource {
    ghost use Rattle.record_layouts.specs.Held.{AreValues, Records};
    ghost use Rattle.record_layouts.specs.Pages.{live_one};
    ghost use Rattle.record_layouts.specs.Head.{FitsHead};
    ghost use Rattle.record_layouts.specs.Proc.{FitsProc};
    ghost use Rattle.record_layouts.specs.Sig.{FitsSig};
    ghost use Rattle.record_layouts.specs.Desc.{FitsDesc};
    ghost use Rattle.record_layouts.specs.File.{FitsFile};
    ghost use Rattle.record_layouts.specs.Cache.{FitsCache};
    ghost use Rattle.record_layouts.specs.Term.{FitsTerm};
    ghost use Rattle.record_layouts.specs.Row.{FitsRow};
    ghost use Rattle.record_layouts.specs.Exit.{FitsExit};

    ghost records: { Self → Records };

    /// The head of the area.
    fn head(&self) -> Option<HeadRec>
        ensures record { result ≡ (records self.now).head }
        ensures fits { IfSome result FitsHead };

    /// The process of a slot.
    fn proc(&self, slot: u32) -> Option<ProcRec>
        requires { slot < 16 }
        ensures record { result ≡ (records self.now).procs slot }
        ensures fits { IfSome result FitsProc };

    /// The process of a slot where it goes on. A slot in which none does may be told without reading its whole record.
    fn live_proc(&self, slot: u32) -> Option<ProcRec>
        requires { slot < 16 }
        ensures record { result ≡ live_one ((records self.now).procs slot) }
        ensures fits { IfSome result FitsProc }
    {
        match self.proc(slot) {
            Some(process) if process.state == OUTSIDE || process.state == IN_CALL => Some(process),
            _ => None,
        }
    }

    /// The signals of the process of a slot.
    fn sig(&self, slot: u32) -> Option<SigRec>
        requires { slot < 16 }
        ensures record { result ≡ (records self.now).sigs slot }
        ensures fits { IfSome result FitsSig };

    /// An open description.
    fn desc(&self, i: u32) -> Option<DescRec>
        requires { i < 32 }
        ensures record { result ≡ (records self.now).descs i }
        ensures fits { IfSome result FitsDesc };

    /// A file.
    fn file(&self, i: u32) -> Option<FileRec>
        requires { i < 32 }
        ensures record { result ≡ (records self.now).files i }
        ensures fits { IfSome result FitsFile };

    /// An entry of the page cache.
    fn cache(&self, i: u32) -> Option<CacheRec>
        requires { i < 64 }
        ensures record { result ≡ (records self.now).caches i }
        ensures fits { IfSome result FitsCache };

    /// A terminal.
    fn term(&self, tty: u32) -> Option<TermRec>
        requires { tty < 2 }
        ensures record { result ≡ (records self.now).terms tty }
        ensures fits { IfSome result FitsTerm };

    /// A row of a terminal: those of terminal 0 come first, 24 of each in the order of the ring.
    fn row(&self, i: u32) -> Option<RowRec>
        requires { i < 48 }
        ensures record { result ≡ (records self.now).rows i }
        ensures fits { IfSome result FitsRow };

    /// What became of a pid.
    fn exit(&self, pid: u32) -> Option<ExitRec>
        requires some { 1 ≤ pid }
        requires pid { pid ≤ 256 }
        ensures record { result ≡ (records self.now).exits pid }
        ensures fits { IfSome result FitsExit };

    /// The word that names the slot and the page to which a user frame belongs. It is 0 where there is no such frame.
    fn owner(&self, frame: u32) -> u32
        ensures { result ≡ (records self.now).owners frame };

    /// The word that names the file and the page of a cache entry.
    fn cache_owner(&self, i: u32) -> u32
        requires { i < 64 }
        ensures { result ≡ (records self.now).cache_owners i };

    /// A word of a page table of a slot. Table 0 is the root, 1 the low table and 2 the high one.
    fn table_word(&self, slot: u32, table: u32, word: u32) -> u32
        requires slot { slot < 16 }
        requires table { table < 3 }
        requires word { word < 1024 }
        ensures { result ≡ (records self.now).table_words slot table word };

    /// The first of the 64 frames of the area.
    fn area_base(&self) -> u32
        ensures base { result ≡ (records self.now).map.area_base }
        ensures room { result + 64 ≤ 2 ^ 32 };

    /// The first of the 64 frames of the cache.
    fn cache_base(&self) -> u32
        ensures base { result ≡ (records self.now).map.cache_base }
        ensures room { result + 64 ≤ 2 ^ 32 };

    /// The first user frame. There are at most 384.
    fn pool_base(&self) -> u32
        ensures base { result ≡ (records self.now).map.pool_base }
        ensures room { result + 384 ≤ 2 ^ 32 };

    ghost values: { (view : Self) → AreValues (records view) };
}
