//! Bytes of a process that a kernel stores.

ghost use Rattle.std.specs.Prelude.{◌≡◌, ℕ, ◌+◌, ◌-◌, ◌/◌, ◌%◌, ◌<◌, ◌≤◌, true, false, Some, is_some, if◌then◌else◌, length, slice_index, take, OnErr, OnOk};
ghost use Rattle.ow_base.specs.Sv32.{byte_of};
ghost use Rattle.record_layouts.specs.Held.{IsBeside, StaysUnstored, held_by};
ghost use Rattle.record_layouts.specs.Pages.{page_frame_of};
ghost use Rattle.record_layouts.specs.Unix.State.{is_within};
ghost use Rattle.frame_table.specs.Maps.{framed_pages};
ghost use Rattle.record_layouts.specs.Unix.Spaces.{takes_word};
ghost use Rattle.address_space.specs.Spaces.{IsPut, IsWordPut};
ghost use Rattle.address_space.specs.Writable.{is_writable};

use frame_table::page_frame;
use ow_base::{Panicked, WordSource};
use record_layouts::Writer;

// The bytes of a page, and of a word.
const PAGE: u32 = 4096;

const WORD: u32 = 4;

/// Stores bytes of the process in a slot from an address on, word by word, the first ones first; the other bytes of a
/// word stay. The process can write there. At `Panicked` the first bytes are stored, fewer than all.
pub fn put_user<W: Writer>(live: &mut W, slot: u32, addr: u32, bytes: &[u8]) -> Result<(), Panicked>
    requires able { W.refused live.old ≡ false }
    requires stands { W.Stands live.old }
    requires slot { slot < 16 }
    requires writable { is_writable (framed_pages (W.records live.old) (W.words live.old) slot) addr (length bytes.now) ≡ true }
    ensures ok { OnOk result (IsPut (held_by W.records W.words W.disk W.rest live.old)
        (held_by W.records W.words W.disk W.rest live.new) slot addr bytes.now) }
    ensures err { OnErr result ((count : ℕ) × (count < length bytes.now) × IsPut (held_by W.records W.words W.disk W.rest live.old)
        (held_by W.records W.words W.disk W.rest live.new) slot addr (take count bytes.now)) }
    ensures stays { OnOk result (W.refused live.new ≡ false) }
    ensures cause { OnErr result (W.refused live.new ≡ true) }
    ensures unstored { StaysUnstored (W.made live.old) (W.made live.new)
        (held_by W.records W.words W.disk W.rest live.old) (held_by W.records W.words W.disk W.rest live.new) }
    ensures allowed { OnErr result (W.may_refuse (W.rest live.old) ≡ true) }
    ensures still_stands { W.Stands live.new }
    ensures place { W.place live.new ≡ W.place live.old }
{
    let mut done = 0;
    while done < bytes.len() {
        let place = addr + done as u32;
        let end = bytes.len().min(done + (PAGE - place % PAGE) as usize);
        put_in_page(live, slot, place, &bytes[done..end])?;
        done = end;
    }
    Ok(())
}

/// Stores a word of the process in a slot by one store: its address is a multiple of four in a page that the process can
/// write. At `Panicked` nothing is stored.
pub fn put_word<W: Writer>(live: &mut W, slot: u32, addr: u32, value: u32) -> Result<(), Panicked>
    requires able { W.refused live.old ≡ false }
    requires stands { W.Stands live.old }
    requires slot { slot < 16 }
    requires takes { takes_word (framed_pages (W.records live.old) (W.words live.old) slot) addr ≡ true }
    ensures ok { OnOk result (IsWordPut (held_by W.records W.words W.disk W.rest live.old)
        (held_by W.records W.words W.disk W.rest live.new) slot addr value) }
    ensures err { OnErr result (held_by W.records W.words W.disk W.rest live.new ≡ held_by W.records W.words W.disk W.rest live.old) }
    ensures stays { OnOk result (W.refused live.new ≡ false) }
    ensures cause { OnErr result (W.refused live.new ≡ true) }
    ensures unstored { StaysUnstored (W.made live.old) (W.made live.new)
        (held_by W.records W.words W.disk W.rest live.old) (held_by W.records W.words W.disk W.rest live.new) }
    ensures allowed { OnErr result (W.may_refuse (W.rest live.old) ≡ true) }
    ensures still_stands { W.Stands live.new }
    ensures place { W.place live.new ≡ W.place live.old }
{
    let frame = page_frame(live, slot, addr / PAGE).unwrap();
    live.direct_word(frame, addr % PAGE / WORD, value)
}

// Stores bytes in one page of a slot, word by word.
fn put_in_page<W: Writer>(live: &mut W, slot: u32, addr: u32, bytes: &[u8]) -> Result<(), Panicked>
    requires able { W.refused live.old ≡ false }
    requires stands { W.Stands live.old }
    requires slot { slot < 16 }
    requires page { is_some (page_frame_of (W.records live.old) slot (addr / 4096)) ≡ true }
    requires within { addr % 4096 + length bytes.now ≤ 4096 }
    ensures ok { OnOk result (IsPut (held_by W.records W.words W.disk W.rest live.old)
        (held_by W.records W.words W.disk W.rest live.new) slot addr bytes.now) }
    ensures err { OnErr result ((count : ℕ) × (count < length bytes.now) × IsPut (held_by W.records W.words W.disk W.rest live.old)
        (held_by W.records W.words W.disk W.rest live.new) slot addr (take count bytes.now)) }
    ensures stays { OnOk result (W.refused live.new ≡ false) }
    ensures cause { OnErr result (W.refused live.new ≡ true) }
    ensures unstored { StaysUnstored (W.made live.old) (W.made live.new)
        (held_by W.records W.words W.disk W.rest live.old) (held_by W.records W.words W.disk W.rest live.new) }
    ensures allowed { OnErr result (W.may_refuse (W.rest live.old) ≡ true) }
    ensures still_stands { W.Stands live.new }
    ensures place { W.place live.new ≡ W.place live.old }
{
    let frame = page_frame(live, slot, addr / PAGE).unwrap();
    let mut done = 0;
    while done < bytes.len() {
        let place = addr + done as u32;
        let end = bytes.len().min(done + (WORD - place % WORD) as usize);
        put_in_word(live, frame, place, &bytes[done..end])?;
        done = end;
    }
    Ok(())
}

// Stores bytes in one word of the frame in which the page of an address lies.
fn put_in_word<W: Writer>(live: &mut W, frame: u32, addr: u32, bytes: &[u8]) -> Result<(), Panicked>
    requires able { W.refused live.old ≡ false }
    requires stands { W.Stands live.old }
    requires beside { IsBeside (W.records live.old) (W.words live.old) frame }
    requires within { addr % 4 + length bytes.now ≤ 4 }
    ensures ok { OnOk result ((slot : ℕ) → page_frame_of (W.records live.old) slot (addr / 4096) ≡ Some frame
        → IsPut (held_by W.records W.words W.disk W.rest live.old) (held_by W.records W.words W.disk W.rest live.new) slot addr bytes.now) }
    ensures err { OnErr result (held_by W.records W.words W.disk W.rest live.new ≡ held_by W.records W.words W.disk W.rest live.old) }
    ensures stays { OnOk result (W.refused live.new ≡ false) }
    ensures cause { OnErr result (W.refused live.new ≡ true) }
    ensures unstored { StaysUnstored (W.made live.old) (W.made live.new)
        (held_by W.records W.words W.disk W.rest live.old) (held_by W.records W.words W.disk W.rest live.new) }
    ensures allowed { OnErr result (W.may_refuse (W.rest live.old) ≡ true) }
    ensures still_stands { W.Stands live.new }
    ensures place { W.place live.new ≡ W.place live.old }
{
    let word = addr % PAGE / WORD;
    let old = live.load(frame, word).unwrap_or(0);
    live.direct_word(
        frame,
        word,
        word_with_bytes(old, (addr % WORD) as usize, bytes),
    )
}

// The word with bytes in place of some of its own, from the one on that is first.
fn word_with_bytes(word: u32, first: usize, bytes: &[u8]) -> u32
    requires { first + length bytes.now ≤ 4 }
    ensures { (k : ℕ) → k < 4
        → byte_of result k ≡ (if is_within first (length bytes.now) k then slice_index bytes.now (k - first) else byte_of word k) }
{
    let mut all = word.to_le_bytes();
    all[first..first + bytes.len()].copy_from_slice(bytes);
    u32::from_le_bytes(all)
}
