//! Ranges of addresses of a process: what is read there, and whether it can read or write there.

ghost use Rattle.std.specs.Prelude.{◌≡◌, ◌+◌, ◌<◌, ◌≤◌, ◌^◌, length, slice_index, true, is_ok, OnOk, EachIndex, IfSome, Some};
ghost use Rattle.ow_base.specs.Pages.{bytes_at, is_readable};
ghost use Rattle.record_layouts.specs.Pages.{byte_on, frame_if, is_mapped, pages_of};
ghost use Rattle.record_layouts.specs.Proc.{FitsProc};
ghost use Rattle.record_layouts.specs.declared.proc.ProcRec.{ProcRec};
ghost use Rattle.sv32_tables.specs.Spaces.{rights_in};
ghost use Rattle.frame_table.specs.Maps.{framed_pages, map_if};
ghost use Rattle.address_space.specs.Writable.{allows, is_open_to, is_writable};

use crate::access::Access;
use frame_table::{frame_of_page, region};
use ow_base::{Efault, Rights};
use record_layouts::{ProcRec, RecordView};

// The bytes of a page.
const PAGE: u32 = 4096;

/// Reads the bytes of a process from an address on, as many as `to` takes.
///
/// `Efault` exactly where a byte of the range lies in no page of the process in the slot, or the range passes 2^32;
/// nothing is said then of `to`. A page counts where it has a frame: a process of which each page has one is read as
/// `pages_of`, and any other slot as `framed_pages`.
#[tactic(auto, using(frame_table::proofs::Tables::framed_same))]
pub fn user_bytes<V: RecordView>(
    view: &V,
    slot: u32,
    addr: u32,
    to: &mut [u8],
) -> Result<(), Efault>
    requires slot { slot < 16 }
    requires room { length to.old ≤ 2 ^ 31 }
    ensures answer { is_ok result ≡ is_readable (framed_pages (V.records view.now) (V.words view.now) slot) addr (length to.old) }
    ensures bytes { OnOk result (to.new ≡ bytes_at (framed_pages (V.records view.now) (V.words view.now) slot) addr (length to.old)) }
    ensures process_answer { (process : ProcRec) → (V.records view.now).procs slot ≡ Some process
        → is_mapped (V.records view.now) slot process ≡ true
        → is_ok result ≡ is_readable (pages_of (V.records view.now) (V.words view.now) slot process) addr (length to.old) }
    ensures process_bytes { (process : ProcRec) → (V.records view.now).procs slot ≡ Some process
        → is_mapped (V.records view.now) slot process ≡ true
        → OnOk result (to.new ≡ bytes_at (pages_of (V.records view.now) (V.words view.now) slot process) addr (length to.old)) }
{
    let process = view.proc(slot);
    read_range(view, slot, &process, addr, to)
}

/// Whether a process can read so many bytes from an address on.
///
/// `Efault` exactly where a byte of the range lies in no page of the process in the slot, or the range passes 2^32. Pages
/// count as in `user_bytes`.
#[tactic(auto, using(frame_table::proofs::Tables::framed_same))]
pub fn can_read<V: RecordView>(view: &V, slot: u32, addr: u32, n: u32) -> Result<(), Efault>
    requires slot { slot < 16 }
    ensures answer { is_ok result ≡ is_readable (framed_pages (V.records view.now) (V.words view.now) slot) addr n }
    ensures process_answer { (process : ProcRec) → (V.records view.now).procs slot ≡ Some process
        → is_mapped (V.records view.now) slot process ≡ true
        → is_ok result ≡ is_readable (pages_of (V.records view.now) (V.words view.now) slot process) addr n }
{
    let process = view.proc(slot);
    if is_range_open(view, slot, &process, Access::Read, addr, n) {
        Ok(())
    } else {
        Err(Efault)
    }
}

/// Whether a process can write so many bytes from an address on.
///
/// `Efault` exactly where a byte of the range lies in no page of values of the process in the slot, or the range passes
/// 2^32. Pages count as in `user_bytes`.
#[tactic(auto, using(frame_table::proofs::Tables::framed_same))]
pub fn can_write<V: RecordView>(view: &V, slot: u32, addr: u32, n: u32) -> Result<(), Efault>
    requires slot { slot < 16 }
    ensures answer { is_ok result ≡ is_writable (framed_pages (V.records view.now) (V.words view.now) slot) addr n }
    ensures process_answer { (process : ProcRec) → (V.records view.now).procs slot ≡ Some process
        → is_mapped (V.records view.now) slot process ≡ true
        → is_ok result ≡ is_writable (pages_of (V.records view.now) (V.words view.now) slot process) addr n }
{
    let process = view.proc(slot);
    if is_range_open(view, slot, &process, Access::Write, addr, n) {
        Ok(())
    } else {
        Err(Efault)
    }
}

// Reads the range page by page.
fn read_range<V: RecordView>(
    view: &V,
    slot: u32,
    process: &Option<ProcRec>,
    addr: u32,
    to: &mut [u8],
) -> Result<(), Efault>
    requires slot { slot < 16 }
    requires room { length to.old ≤ 2 ^ 31 }
    requires read { (V.records view.now).procs slot ≡ process.now }
    requires fits { IfSome process.now FitsProc }
    ensures answer { is_ok result ≡ is_readable (framed_pages (V.records view.now) (V.words view.now) slot) addr (length to.old) }
    ensures bytes { OnOk result (to.new ≡ bytes_at (framed_pages (V.records view.now) (V.words view.now) slot) addr (length to.old)) }
{
    let mut done = 0;
    while done < to.len() {
        let Some(place) = addr.checked_add(done as u32) else {
            return Err(Efault);
        };
        let Some(frame) = frame_in(view, slot, process, place / PAGE) else {
            return Err(Efault);
        };
        let end = to.len().min(done + (PAGE - place % PAGE) as usize);
        read_frame(view, frame, place % PAGE, &mut to[done..end]);
        done = end;
    }
    Ok(())
}

// Whether each byte of the range lies in a page that is open to the access, asked page by page.
fn is_range_open<V: RecordView>(
    view: &V,
    slot: u32,
    process: &Option<ProcRec>,
    access: Access,
    addr: u32,
    n: u32,
) -> bool
    requires slot { slot < 16 }
    requires read { (V.records view.now).procs slot ≡ process.now }
    requires fits { IfSome process.now FitsProc }
    ensures { result ≡ is_open_to access (framed_pages (V.records view.now) (V.words view.now) slot) addr n }
{
    let mut done = 0;
    while done < n {
        let Some(place) = addr.checked_add(done) else {
            return false;
        };
        if !is_page_open(view, slot, process, access, place / PAGE) {
            return false;
        }
        done += (n - done).min(PAGE - place % PAGE);
    }
    true
}

// The frame of a page of a slot that has this process.
fn frame_in<V: RecordView>(view: &V, slot: u32, process: &Option<ProcRec>, page: u32) -> Option<u32>
    requires slot { slot < 16 }
    requires page { page < 2 ^ 20 }
    requires fits { IfSome process.now FitsProc }
    ensures { result ≡ frame_if (V.records view.now) slot page process.now }
{
    match process {
        Some(rec) => frame_of_page(view, slot, rec, page),
        None => None,
    }
}

// Whether a page of a slot that has this process has a frame and is open to the access.
#[tactic(auto, unfolding(frame_table::specs::Maps::map_of))]
fn is_page_open<V: RecordView>(
    view: &V,
    slot: u32,
    process: &Option<ProcRec>,
    access: Access,
    page: u32,
) -> bool
    requires slot { slot < 16 }
    requires page { page < 2 ^ 20 }
    requires fits { IfSome process.now FitsProc }
    ensures { result ≡ allows access (rights_in (map_if (V.records view.now) slot page process.now)) }
{
    match process {
        Some(rec) => {
            let frame = frame_of_page(view, slot, rec, page);
            match (access, region(rec, page), frame) {
                (Access::Read, Some(_), Some(_)) => true,
                (Access::Write, Some(Rights::Values), Some(_)) => true,
                _ => false,
            }
        }
        None => false,
    }
}

// Reads bytes of a frame from an offset on.
fn read_frame<V: RecordView>(view: &V, frame: u32, offset: u32, to: &mut [u8])
    requires { offset + length to.old ≤ 4096 }
    ensures long { length to.new ≡ length to.old }
    ensures bytes { EachIndex to.new (λ k. slice_index to.new k ≡ byte_on (V.words view.now) (offset + k) (Some frame)) }
{
    for (k, byte) in to.iter_mut().enumerate() {
        *byte = byte_in(view, frame, offset + k as u32);
    }
}

// The byte at an offset of a frame, 0 where there is no such frame.
fn byte_in<V: RecordView>(view: &V, frame: u32, offset: u32) -> u8
    requires { offset < 4096 }
    ensures { result ≡ byte_on (V.words view.now) offset (Some frame) }
{
    let word = view.load(frame, offset / 4).unwrap_or(0);
    word.to_le_bytes()[(offset % 4) as usize]
}
