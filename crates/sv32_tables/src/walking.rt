//! The walk from an address of a program to a frame of memory (RISC-V manual, volume II, Sv32).

ghost use Rattle.std.specs.Prelude.{◌≡◌, ◌<◌, ◌^◌, ◌%◌, ◌/◌, true, Some, IfOk, is_some};
ghost use Rattle.ow_base.specs.Words.{bits};
ghost use Rattle.ow_base.specs.Sv32.{translated, by_first, by_megapage, by_last, by_leaf};
ghost use Rattle.sv32_tables.specs.Places.{place_reached};

use crate::entry::Entry;
use ow_base::{Access, PageCause, Phys, WordSource};

// The bytes of a page.
const PAGE: u32 = 4096;

// The bytes that an entry of the first level speaks of.
const MEGAPAGE: u32 = 0x40_0000;

// The entries of a table, and so the pages of a megapage.
const ENTRIES: u32 = 1024;

// The frames that `satp` can name: PPN is its 22 lowest bits.
const FRAMES: u32 = 0x40_0000;

/// A place in memory that an access leads to, and the word there.
#[derive(Clone, Copy, Debug, PartialEq, Eq)]
pub struct Reached {
    pub place: Phys,
    pub word: u32,
}

/// Where an access of a program in user mode to the address `va` leads, by the tables whose root `satp` names.
/// MODE is 1 in `satp`: Sv32 is on. Its ASID counts for nothing, and MXR is taken as 0: what can only be executed
/// is not loaded.
///
/// A place has the address's offset in its page, and its word is there. `Err(Page)` where an entry does not count, leads no further, does not give the access or is a megapage that
/// is not aligned; `Err(Access)` where a table or the place lies in a frame that is not there.
pub fn walk<W: WordSource>(
    source: &W,
    satp: u32,
    va: u32,
    access: Access,
) -> Result<Phys, PageCause>
    requires mode { bits satp 31 1 ≡ 1 }
    ensures answer { result ≡ translated (W.words source.now) satp va access }
    ensures offset { IfOk result (λ place. place.offset ≡ va % 4096) }
    ensures there { IfOk result (λ place. is_some (W.words source.now place.frame (place.offset / 4)) ≡ true) }
{
    match reach(source, satp, va, access) {
        Ok(reached) => Ok(reached.place),
        Err(cause) => Err(cause),
    }
}

/// Where an access leads, as `walk` says it, and the word at that place, so that it need not be looked for again.
#[inline(always)]
#[tactic(auto, unfolding(ow_base::specs::Sv32::translated))]
pub fn reach<W: WordSource>(
    source: &W,
    satp: u32,
    va: u32,
    access: Access,
) -> Result<Reached, PageCause>
    requires mode { bits satp 31 1 ≡ 1 }
    ensures answer { place_reached result ≡ translated (W.words source.now) satp va access }
    ensures offset { IfOk result (λ reached. reached.place.offset ≡ va % 4096) }
    ensures word { IfOk result (λ reached. W.words source.now reached.place.frame (reached.place.offset / 4) ≡ Some reached.word) }
{
    let root = satp % FRAMES;
    match source.load(root, first_place(va)) {
        Some(word) => first_level(source, access, va, Entry { word }),
        None => Err(PageCause::Access),
    }
}

// The place of an address in the table of the first level: VPN[1].
fn first_place(address: u32) -> u32
    ensures value { result ≡ bits address 22 10 }
    ensures fits { result < 1024 }
{
    address / MEGAPAGE
}

// Its place in a table of the last level, and the frame's place in a megapage: VPN[0].
fn last_place(address: u32) -> u32
    ensures value { result ≡ bits address 12 10 }
    ensures fits { result < 1024 }
{
    address / PAGE % ENTRIES
}

#[inline(always)]
fn first_level<W: WordSource>(
    source: &W,
    access: Access,
    address: u32,
    entry: Entry,
) -> Result<Reached, PageCause>
    ensures answer { place_reached result ≡ by_first (W.words source.now) access address (Some entry.word) }
    ensures offset { IfOk result (λ reached. reached.place.offset ≡ address % 4096) }
    ensures word { IfOk result (λ reached. W.words source.now reached.place.frame (reached.place.offset / 4) ≡ Some reached.word) }
{
    if !entry.is_valid() {
        return Err(PageCause::Page);
    }
    if entry.is_leaf() {
        return megapage(source, access, address, entry);
    }
    match source.load(entry.frame(), last_place(address)) {
        Some(word) => last_level(source, access, address, Entry { word }),
        None => Err(PageCause::Access),
    }
}

#[cold]
#[tactic(auto, unfolding(ow_base::specs::Sv32::by_megapage))]
fn megapage<W: WordSource>(
    source: &W,
    access: Access,
    address: u32,
    entry: Entry,
) -> Result<Reached, PageCause>
    ensures answer { place_reached result ≡ by_megapage (W.words source.now) access address entry.word }
    ensures offset { IfOk result (λ reached. reached.place.offset ≡ address % 4096) }
    ensures word { IfOk result (λ reached. W.words source.now reached.place.frame (reached.place.offset / 4) ≡ Some reached.word) }
{
    let first_frame = entry.frame();
    if first_frame % ENTRIES != 0 {
        return Err(PageCause::Page);
    }
    page(
        source,
        access,
        address,
        entry,
        first_frame + last_place(address),
    )
}

#[inline(always)]
fn last_level<W: WordSource>(
    source: &W,
    access: Access,
    address: u32,
    entry: Entry,
) -> Result<Reached, PageCause>
    ensures answer { place_reached result ≡ by_last (W.words source.now) access address (Some entry.word) }
    ensures offset { IfOk result (λ reached. reached.place.offset ≡ address % 4096) }
    ensures word { IfOk result (λ reached. W.words source.now reached.place.frame (reached.place.offset / 4) ≡ Some reached.word) }
{
    if !entry.is_valid() || !entry.is_leaf() {
        return Err(PageCause::Page);
    }
    page(source, access, address, entry, entry.frame())
}

// The place in the page that a leaf gives. Whether its frame is there is asked after the right to it.
#[inline(always)]
#[tactic(auto, unfolding(ow_base::specs::Sv32::by_leaf))]
fn page<W: WordSource>(
    source: &W,
    access: Access,
    address: u32,
    entry: Entry,
    frame: u32,
) -> Result<Reached, PageCause>
    ensures answer { place_reached result ≡ by_leaf (W.words source.now) access address entry.word frame }
    ensures offset { IfOk result (λ reached. reached.place.offset ≡ address % 4096) }
    ensures word { IfOk result (λ reached. W.words source.now reached.place.frame (reached.place.offset / 4) ≡ Some reached.word) }
{
    if !entry.permits(access) {
        return Err(PageCause::Page);
    }
    let offset = address % PAGE;
    match source.load(frame, offset / 4) {
        Some(word) => Ok(Reached {
            place: Phys { frame, offset },
            word,
        }),
        None => Err(PageCause::Access),
    }
}
