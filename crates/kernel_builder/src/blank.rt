//! Records of what a kernel does not have.
ghost use Rattle.std.specs.Prelude.{◌≡◌, ◌<◌};
ghost use Rattle.record_layouts.specs.Cache.{FitsCache};
ghost use Rattle.record_layouts.specs.Desc.{FitsDesc};
ghost use Rattle.record_layouts.specs.File.{FitsFile};
ghost use Rattle.record_layouts.specs.Proc.{FitsProc};
ghost use Rattle.record_layouts.specs.Row.{FitsRow};
ghost use Rattle.record_layouts.specs.Sig.{FitsSig};
ghost use Rattle.kernel_builder.specs.Blank.{blank_bank, blank_row_record, empty_entry, free_process, no_signals, unused_description, unused_file};

use ow_base::{Bank, Regs};
use record_layouts::{CacheRec, DescRec, FileRec, ProcRec, RowRec, SigRec};

// What a blank row has in each place.
const BLANK: u8 = 32;

/// All registers and the pc are 0.
pub fn blank_bank() -> Bank
    ensures { result ≡ blank_bank }
{
    Bank {
        pc: 0,
        regs: Regs::new(),
    }
}

/// The process of a slot that is free.
pub fn free_process() -> ProcRec
    ensures is { result ≡ free_process }
    ensures fits { FitsProc result }
{
    ProcRec {
        state: 0,
        pid: 0,
        parent: 0,
        call: 0,
        done: 0,
        code_pages: 0,
        data_pages: 0,
        brk: 0,
        procedure: 0,
        mask: 0,
        flags: 0,
        status: 0,
        descs: [0; 8],
        regs: Regs::new(),
        pc: 0,
        handler_save: blank_bank(),
        crash_save: blank_bank(),
    }
}

/// The signals of a process, or of none where the pid is 0: none is pending, and there is no handler.
pub fn no_signals(pid: u32) -> SigRec
    ensures is { result ≡ no_signals pid }
    ensures fits { FitsSig result }
{
    SigRec {
        pid,
        pending: 0,
        handlers: [0; 15],
    }
}

/// A description that is not open.
pub fn unused_description() -> DescRec
    ensures is { result ≡ unused_description }
    ensures fits { FitsDesc result }
{
    DescRec {
        object: 0,
        index: 0,
        mode: 0,
        offset: 0,
    }
}

/// No file.
pub fn unused_file() -> FileRec
    ensures is { result ≡ unused_file }
    ensures fits { FitsFile result }
{
    FileRec {
        state: 0,
        name_len: 0,
        name: [0; 24],
        size: 0,
        kept: 0,
        sectors: [0; 64],
    }
}

/// An entry of the page cache that holds no page.
pub fn empty_entry() -> CacheRec
    ensures is { result ≡ empty_entry }
    ensures fits { FitsCache result }
{
    CacheRec {
        state: 0,
        file: 0,
        page: 0,
    }
}

/// A blank row of a terminal. Rows are numbered as `RecordId` says.
pub fn blank_row(place: u32) -> RowRec
    requires { place < 48 }
    ensures is { result ≡ blank_row_record place }
    ensures fits { FitsRow result }
{
    RowRec {
        place,
        text: [BLANK; 80],
    }
}
