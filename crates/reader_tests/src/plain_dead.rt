//! What a panic left of processes, terminals and the cache, as the rules say, from the records of an area.

use crate::plain_area::PlainArea;
use crate::plain_records::{Kind, word};
use dead_reader::{HandOver, RecordId, Unreadable};
use ow_base::Came;

/// What is left of a process: the words of its record with the registers and the pc that the panic left, and whether its
/// call is aborted or stands.
#[derive(Clone, Copy)]
pub(crate) struct PlainProcess {
    pub(crate) words: [u32; 128],
    pub(crate) aborted: bool,
    pub(crate) stands: bool,
}

// The calls exit, sigreturn, crashreturn and yield.
fn is_made_again(call: u32) -> bool {
    call == 1 || call == 14 || call == 16 || call == 18
}

impl PlainArea<'_> {
    /// The least pid whose exit record has it as live in a slot.
    pub(crate) fn pid_in(&self, slot: u32) -> Option<u32> {
        (1..257u32).find(|pid| self.is_live_in(*pid, slot))
    }

    fn is_live_in(&self, pid: u32, slot: u32) -> bool {
        match self.record(Kind::Exit, pid.wrapping_sub(1)) {
            Some(words) => word(words, 1) == 1 && word(words, 2) == slot,
            None => false,
        }
    }

    /// What is left of the process of a slot, or its first part that does not decode.
    pub(crate) fn process(
        &self,
        slot: u32,
        handed: Option<HandOver>,
    ) -> Result<Option<PlainProcess>, Unreadable> {
        let Some(pid) = self.pid_in(slot) else {
            return Ok(None);
        };
        let id = RecordId::Proc(slot);
        let Some(head) = self.record(Kind::Head, 0) else {
            return Err(Unreadable {
                id: RecordId::Head,
                index: 0,
            });
        };
        let Some(words) = self.live_record(slot, pid) else {
            return Err(Unreadable { id, index: 0 });
        };
        if !self.leads_to_tables(slot) {
            return Err(Unreadable { id, index: 1 });
        }
        match self.page_without_frame(slot, words) {
            Some(index) => Err(Unreadable { id, index }),
            None => Ok(Some(left_by(words, word(head, 2), handed))),
        }
    }

    // The record of a slot, where it goes on with this pid.
    fn live_record(&self, slot: u32, pid: u32) -> Option<&[u32]> {
        let words = self.record(Kind::Proc, slot)?;
        let state = word(words, 1);
        if (state == 1 || state == 2) && word(words, 2) == pid {
            Some(words)
        } else {
            None
        }
    }

    // The root leads to the slot's own low table and to its own high one, by pointers and nothing else.
    fn leads_to_tables(&self, slot: u32) -> bool {
        let root = slot
            .wrapping_mul(3)
            .wrapping_add(self.first_frame)
            .wrapping_add(16);
        let low = root.wrapping_add(1).wrapping_mul(1024).wrapping_add(1);
        let high = root.wrapping_add(2).wrapping_mul(1024).wrapping_add(1);
        self.table_word(slot, 0, 0) == low && self.table_word(slot, 0, 511) == high
    }

    // The first page of the regions that has no frame.
    fn page_without_frame(&self, slot: u32, words: &[u32]) -> Option<u32> {
        let values = word(words, 6).wrapping_add(16);
        let heap = word(words, 8).div_ceil(4096);
        let end = values.wrapping_add(word(words, 7)).wrapping_add(heap);
        let below = (16..end).find(|page| {
            let flags = if *page < values { 0x5b } else { 0xd7 };
            !self.has_frame(slot, 1, *page, flags)
        });
        match below {
            Some(page) => Some(page),
            None => (0x7_fffc..=0x7_ffff).find(|page| !self.has_frame(slot, 2, *page, 0xd7)),
        }
    }

    // The page's word of a table is exactly a leaf with these flags, of a user frame that belongs to this page of the slot.
    fn has_frame(&self, slot: u32, table: u32, page: u32, flags: u32) -> bool {
        let leaf = self.table_word(slot, table, page % 1024);
        let number = (leaf / 1024).wrapping_sub(self.first_frame.wrapping_add(128));
        let claim = slot
            .wrapping_add(1)
            .wrapping_mul(0x10_0000)
            .wrapping_add(page);
        leaf % 1024 == flags && number < self.user_frames && self.owner(number) == claim
    }

    /// The bits of what a process lost beside its core records.
    pub(crate) fn lost(&self, slot: u32, words: &[u32]) -> u32 {
        let mut bits = 0;
        for named in words.iter().take(21).skip(13) {
            bits |= self.lost_with(*named);
        }
        if self.record(Kind::Sig, slot).is_none() {
            bits |= 8;
        }
        bits
    }

    // The bits of what is lost with a descriptor.
    fn lost_with(&self, named: u32) -> u32 {
        let Some(number) = named.checked_sub(1) else {
            return 0;
        };
        let Some(words) = self.record(Kind::Desc, number) else {
            return 1;
        };
        match (word(words, 1), word(words, 2)) {
            (1, file) => self.lost_of_file(file),
            (2, tty) if !self.has_terminal(tty) => 4,
            _ => 0,
        }
    }

    // 1 where the record of a file does not decode, and 2 where an entry of the cache does not that held a page of it.
    fn lost_of_file(&self, file: u32) -> u32 {
        let is_reset = self.record(Kind::File, file).is_none();
        let lacks_page = (0..64u32).any(|entry| {
            let owner = self.cache_owner(entry);
            self.record(Kind::Cache, entry).is_none() && owner >> 20 == file.wrapping_add(1)
        });
        u32::from(is_reset) | if lacks_page { 2 } else { 0 }
    }

    // The record of a terminal and its 24 rows decode.
    fn has_terminal(&self, tty: u32) -> bool {
        let first = tty.wrapping_mul(24);
        self.record(Kind::Term, tty).is_some()
            && (0..24u32).all(|row| self.record(Kind::Row, first.wrapping_add(row)).is_some())
    }

    /// The last byte of a terminal, where its device has written all before it and not this one.
    pub(crate) fn in_flight(&self, tty: u32, count: u32) -> Option<u32> {
        let words = self.record(Kind::Term, tty)?;
        if self.has_terminal(tty) && word(words, 2).checked_sub(count) == Some(1) {
            Some(word(words, 3))
        } else {
            None
        }
    }

    /// The file and the page of an entry that is dirty, where that file keeps the page.
    pub(crate) fn dirty(&self, entry: u32) -> Option<(u32, u32)> {
        let words = self.record(Kind::Cache, entry)?;
        let (file, page) = (word(words, 2), word(words, 3));
        let of_file = self.record(Kind::File, file)?;
        if word(words, 1) == 2 && word(of_file, 1) == 1 && page < word(of_file, 10) {
            Some((file, page))
        } else {
            None
        }
    }
}

// What is left of a process by its record, where this trap was served last.
fn left_by(record: &[u32], served: u32, handed: Option<HandOver>) -> PlainProcess {
    let mut words = [0; 128];
    for (to, from) in words.iter_mut().zip(record) {
        *to = *from;
    }
    let mut call = None;
    if let Some(handed) = handed {
        if handed.trap != served && handed.pid == words[2] && handed.came != Came::Kernel {
            words[21..52].copy_from_slice(handed.bank.regs.words());
            words[52] = handed.bank.pc;
            if handed.came == Came::Call {
                call = Some(words[37]);
            }
        }
    }
    if words[1] == 2 {
        call = Some(words[4]);
    }
    PlainProcess {
        words,
        aborted: call.is_some_and(|call| !is_made_again(call)),
        stands: call.is_some_and(|call| is_made_again(call)),
    }
}
