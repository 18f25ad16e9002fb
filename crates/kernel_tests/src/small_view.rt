//! A view of a kernel whose only process has pid 9 and slot 3.
ghost use Rattle.std.specs.Prelude.{◌≡◌, replicate};
ghost use Rattle.syscalls.specs.Serving.{CanCall};

use ow_base::{Bank, Regs};
use record_layouts::{
    CacheRec, DescRec, ExitRec, FileRec, HeadRec, ProcRec, RecordView, RowRec, SigRec, TermRec,
    WordSource,
};

// The words of the tables: the low and the high table, the page of code in frame 130, and the stack from frame 131 on.
const LOW_TABLE: u32 = 1024 * 26 + 1;

const HIGH_TABLE: u32 = 1024 * 27 + 1;

const CODE_LEAF: u32 = 1024 * 130 + 0x5b;

const STACK_LEAF: u32 = 1024 * 131 + 0xd7;

// The owner words of these frames.
const CODE_CLAIM: u32 = 0x0040_0010;

const STACK_CLAIM: u32 = 0x0047_fffc;

fn blank() -> Bank
    ensures { result ≡ record { pc = 0; regs = replicate 31 0 } }
{
    Bank {
        pc: 0,
        regs: Regs::new(),
    }
}

/// The kernel's process: its registers, the call that it is in and the bytes done, and whether its descriptor 0 only
/// reads.
///
/// It has one page of code and its stack. Descriptor 0 is on terminal 1, descriptor 1 names a description that is
/// closed, and there are no others. All slots hold the process, but the pages have frames in slot 3 alone.
#[derive(Clone, Copy)]
pub(crate) struct SmallView {
    pub(crate) regs: Regs,
    pub(crate) inside: bool,
    pub(crate) call: u32,
    pub(crate) done: u32,
    pub(crate) reads_only: bool,
}

impl SmallView {
    // Calls of the process can be served.
    pub(crate) fn can_call(&self)
        ensures { CanCall (⟦<SmallView as RecordView>⟧.records self.now) 3 }
    {}
}

impl WordSource for SmallView {
    ghost use Rattle.std.specs.Prelude.{Some};

    ghost words = { λ s frame place. Some 0 };

    fn load(&self, _frame: u32, _word: u32) -> Option<u32> {
        Some(0)
    }
}

impl RecordView for SmallView {
    ghost use Rattle.kernel_tests.specs.Small.{small_records, small_values};

    ghost records = { λ s. small_records s.inside s.reads_only s.call s.done s.regs };

    ghost values = { λ s. small_values s.inside s.reads_only s.call s.done s.regs };

    fn head(&self) -> Option<HeadRec> {
        Some(HeadRec {
            layout: 1,
            served: 40,
            last: 0,
            next: 10,
            hand: 0,
        })
    }

    fn proc(&self, _slot: u32) -> Option<ProcRec> {
        let (state, call, done) = if self.inside {
            (2, self.call, self.done)
        } else {
            (1, 0, 0)
        };
        Some(ProcRec {
            state,
            pid: 9,
            parent: 0,
            call,
            done,
            code_pages: 1,
            data_pages: 0,
            brk: 0,
            procedure: 0,
            mask: 0,
            flags: 0,
            status: 0,
            descs: [1, 2, 0, 0, 0, 0, 0, 0],
            regs: self.regs,
            pc: 0x0001_0010,
            handler_save: blank(),
            crash_save: blank(),
        })
    }

    fn sig(&self, _slot: u32) -> Option<SigRec> {
        Some(SigRec {
            pid: 0,
            pending: 0,
            handlers: [0; 15],
        })
    }

    fn desc(&self, i: u32) -> Option<DescRec> {
        if i == 0 {
            return Some(DescRec {
                object: 2,
                index: 1,
                mode: if self.reads_only { 1 } else { 3 },
                offset: 0,
            });
        }
        Some(DescRec {
            object: 0,
            index: 0,
            mode: 0,
            offset: 0,
        })
    }

    fn file(&self, _i: u32) -> Option<FileRec> {
        Some(FileRec {
            state: 0,
            name_len: 0,
            name: [0; 24],
            size: 0,
            kept: 0,
            sectors: [0; 64],
        })
    }

    fn cache(&self, _i: u32) -> Option<CacheRec> {
        Some(CacheRec {
            state: 0,
            file: 0,
            page: 0,
        })
    }

    fn term(&self, _tty: u32) -> Option<TermRec> {
        Some(TermRec {
            tty: 0,
            written: 0,
            last: 0,
            consumed: 0,
            top: 0,
            row: 0,
            col: 0,
            base: 0,
        })
    }

    fn row(&self, _i: u32) -> Option<RowRec> {
        Some(RowRec {
            place: 0,
            text: [b' '; 80],
        })
    }

    fn exit(&self, _pid: u32) -> Option<ExitRec> {
        Some(ExitRec { state: 0, value: 0 })
    }

    fn owner(&self, frame: u32) -> u32 {
        match frame {
            2 => CODE_CLAIM,
            3..=6 => STACK_CLAIM + (frame - 3),
            _ => 0,
        }
    }

    fn cache_owner(&self, _i: u32) -> u32 {
        0
    }

    fn table_word(&self, _slot: u32, table: u32, word: u32) -> u32 {
        match (table, word) {
            (0, 0) => LOW_TABLE,
            (0, 511) => HIGH_TABLE,
            (1, 16) => CODE_LEAF,
            (2, 1020..=1023) => STACK_LEAF + 1024 * (word - 1020),
            _ => 0,
        }
    }

    fn area_base(&self) -> u32 {
        0
    }

    fn cache_base(&self) -> u32 {
        64
    }

    fn pool_base(&self) -> u32 {
        128
    }
}
