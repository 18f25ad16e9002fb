//! The calls, one after the other, and the pieces of those that are done piece by piece.

ghost use Rattle.std.specs.Prelude.{◌≡◌, ◌≢◌, ◌+◌, ◌%◌, ◌<◌, ◌≤◌, true, false, IfSome, IfNone};
ghost use Rattle.ow_base.specs.Pages.{is_readable};
ghost use Rattle.record_layouts.specs.Desc.{FitsDesc};
ghost use Rattle.record_layouts.specs.Patch.{IsPatch};
ghost use Rattle.process_table.specs.Patches.{ended_items};
ghost use Rattle.process_table.specs.Slots.{is_live_one};
ghost use Rattle.syscalls.specs.Planned.{argument_of, named, pages_in, planned_number, planned_on, planned_sbrk, planned_tty, planned_write};
ghost use Rattle.syscalls.specs.Serving.{CanCall, IsCallOf, IsCallerIn, IsDoable, IsInside, IsOutside, IsPieceOf, plan_of};

use crate::caller::{Caller, WAIT, WRITE};
use crate::children::{fork, wait};
use crate::service::Service;
use address_space::can_read;
use frame_table::free_frames;
use ow_base::{Bank, Efault, Errno, Now};
use process_table::end_process;
use record_layouts::{DescRec, Patch, ProcRec, RecordView};

// The numbers of the other calls, and the register that holds the number.
const EXIT: u32 = 1;

const GETPID: u32 = 7;

const SBRK: u32 = 8;

const FORK: u32 = 9;

const YIELD: u32 = 18;

const NUMBER: u32 = 17;

// The errors: no such descriptor or no right to write, an address that cannot be read, a count that is too large, no
// room for a heap, and a number that is no call.
const EBADF: Errno = Errno(9);

pub(crate) const EFAULT: Errno = Errno(14);

const EINVAL: Errno = Errno(22);

pub(crate) const ENOMEM: Errno = Errno(12);

const ENOSYS: Errno = Errno(38);

// The address at which a heap ends at the latest.
const HEAP_END: u32 = 0x0040_0000;

// The most bytes that a write may ask for, and the most that one piece writes on a terminal.
const MOST_BYTES: u32 = 0x7fff_ffff;

const PIECE: u32 = 16;

// What a description is open on: nothing, or a file.
const CLOSED: u32 = 0;

const FILE: u32 = 1;

// What a descriptor of the live process in the slot stands for, `None` exactly where it stands for nothing that is open.
#[tactic(auto, unfolding(crate::specs::Planned::named))]
fn look<V: RecordView>(view: &V, slot: u32, fd: u32) -> Option<DescRec>
    requires slot { slot < 16 }
    requires live { is_live_one ((V.records view.now).procs slot) ≡ true }
    ensures named { IfSome ((V.records view.now).procs slot) (λ process. result ≡ named (V.records view.now) process.descs fd) }
    ensures fits { IfSome result FitsDesc }
    ensures opened { IfSome result (λ description. description.object ≢ 0) }
{
    let process = view.proc(slot)?;
    let word = *process.descs.get(fd as usize)?;
    if word == 0 {
        return None;
    }
    let description = view.desc(word - 1)?;
    if description.object == CLOSED {
        None
    } else {
        Some(description)
    }
}

// The address of the next bytes of a write, so many: `None` exactly where one of them cannot be read.
#[tactic(auto, using(crate::proofs::Behind::unreadable_behind))]
fn next_bytes<V: RecordView>(view: &V, caller: &Caller, done: u32, len: u32) -> Option<u32>
    requires caller { IsCallerIn (V.records view.now) caller.now }
    requires some { 1 ≤ len }
    requires piece { len ≤ 16 }
    ensures found { IfSome result (λ from. (from ≡ argument_of caller.now.process 1 + done)
        × (is_readable (pages_in (V.records view.now) (V.words view.now) caller.now.slot) (argument_of caller.now.process 1 + done) len ≡ true)) }
    ensures none { IfNone result
        (is_readable (pages_in (V.records view.now) (V.words view.now) caller.now.slot) (argument_of caller.now.process 1 + done) len ≡ false) }
{
    let Some(from) = caller.argument(1).checked_add(done) else {
        return None;
    };
    match can_read(view, caller.slot, from, len) {
        Ok(()) => Some(from),
        Err(Efault) => None,
    }
}

// A piece of a write on a terminal, of which so many bytes are done and some are left.
#[tactic(auto, unfolding(crate::specs::Planned::planned_tty))]
fn tty_piece<V: RecordView>(view: &V, caller: &Caller, tty: u32, done: u32) -> Service
    requires caller { IsCallerIn (V.records view.now) caller.now }
    requires tty { tty < 2 }
    requires left { done < argument_of caller.now.process 2 }
    ensures plan { plan_of result ≡ planned_tty (pages_in (V.records view.now) (V.words view.now) caller.now.slot) caller.now tty done }
    ensures doable { IsDoable (V.records view.now) (V.words view.now) caller.now.slot result }
{
    let len = PIECE.min(caller.argument(2) - done);
    match next_bytes(view, caller, done, len) {
        Some(from) => Service::TtyWrite {
            tty,
            from,
            len,
            patch: caller.has_written(done + len),
        },
        None => Service::Once {
            patch: caller.is_stopped(done, EFAULT),
        },
    }
}

// A piece of a write on what the description is open on. Writes on files are not built: the trap is served, and the
// process is what it was.
fn piece<V: RecordView>(view: &V, caller: &Caller, description: &DescRec, done: u32) -> Service
    requires caller { IsCallerIn (V.records view.now) caller.now }
    requires fits { FitsDesc description.now }
    requires opened { description.now.object ≢ 0 }
    requires left { done < argument_of caller.now.process 2 }
    ensures plan { plan_of result ≡ planned_on (pages_in (V.records view.now) (V.words view.now) caller.now.slot) caller.now description.now done }
    ensures doable { IsDoable (V.records view.now) (V.words view.now) caller.now.slot result }
{
    if description.object == FILE {
        return Service::Once {
            patch: caller.is_unchanged(),
        };
    }
    tty_piece(view, caller, description.index, done)
}

// The call write.
#[tactic(auto, unfolding(crate::specs::Planned::planned_write, crate::specs::Planned::planned_write_on))]
fn write<V: RecordView>(view: &V, caller: &Caller) -> Service
    requires { IsCallerIn (V.records view.now) caller.now }
    ensures plan { plan_of result ≡ planned_write (V.records view.now) (pages_in (V.records view.now) (V.words view.now) caller.now.slot) caller.now }
    ensures doable { IsDoable (V.records view.now) (V.words view.now) caller.now.slot result }
{
    let Some(description) = look(view, caller.slot, caller.argument(0)) else {
        return Service::Once {
            patch: caller.fails(EBADF),
        };
    };
    if description.mode / 2 != 1 {
        return Service::Once {
            patch: caller.fails(EBADF),
        };
    }
    let count = caller.argument(2);
    if count > MOST_BYTES {
        return Service::Once {
            patch: caller.fails(EINVAL),
        };
    }
    if count == 0 {
        return Service::Once {
            patch: caller.answers(0),
        };
    }
    piece(view, caller, &description, 0)
}

// The call exit.
#[tactic(auto, unfolding(process_table::specs::Patches::ended_items))]
fn exit<V: RecordView>(view: &V, caller: &Caller) -> Patch
    requires { IsCallerIn (V.records view.now) caller.now }
    ensures items { result.items.items ≡ ended_items caller.now.head caller.now.slot caller.now.process (argument_of caller.now.process 0 % 256) caller.now.trap }
    ensures patch { IsPatch result.items.items }
{
    end_process(view, caller.slot, caller.argument(0) % 256, caller.trap)
}

// The call sbrk: pages are prepared for what the heap grows by.
#[tactic(auto, unfolding(crate::specs::Planned::planned_sbrk))]
fn sbrk<V: RecordView>(view: &V, caller: &Caller, user_frames: u32) -> Service
    requires caller { IsCallerIn (V.records view.now) caller.now }
    requires frames { user_frames ≡ (V.records view.now).map.user_frames }
    requires few { user_frames ≤ 384 }
    ensures plan { plan_of result ≡ planned_sbrk (V.records view.now) caller.now }
    ensures doable { IsDoable (V.records view.now) (V.words view.now) caller.now.slot result }
{
    let bytes = caller.argument(0);
    let fits = match caller.break_address().checked_add(bytes) {
        Some(end) => end <= HEAP_END,
        None => false,
    };
    if !fits {
        return Service::Once {
            patch: caller.fails(ENOMEM),
        };
    }
    let count = caller.pages_more(bytes);
    if count > free_frames(view, user_frames) {
        return Service::Once {
            patch: caller.fails(ENOMEM),
        };
    }
    Service::Grow {
        count,
        patch: caller.has_grown(bytes),
    }
}

// The call with this number.
#[tactic(auto, unfolding(crate::specs::Planned::planned_number))]
fn serve<V: RecordView>(view: &V, caller: &Caller, number: u32, user_frames: u32) -> Service
    requires caller { IsCallerIn (V.records view.now) caller.now }
    requires frames { user_frames ≡ (V.records view.now).map.user_frames }
    requires few { user_frames ≤ 384 }
    ensures plan { plan_of result ≡ planned_number (V.records view.now) (pages_in (V.records view.now) (V.words view.now) caller.now.slot) caller.now number }
    ensures doable { IsDoable (V.records view.now) (V.words view.now) caller.now.slot result }
{
    let patch = match number {
        EXIT => exit(view, caller),
        WRITE => return write(view, caller),
        GETPID => caller.answers(caller.process.pid),
        SBRK => return sbrk(view, caller, user_frames),
        FORK => return fork(view, caller, user_frames),
        WAIT => return wait(view, caller),
        YIELD => caller.goes_on(),
        _ => caller.fails(ENOSYS),
    };
    Service::Once { patch }
}

/// What the call of the process in the slot asks for, in the trap `now.trap`.
///
/// The process is live and outside a call, and `bank` is what the processor has of it: the number of the call is in a7
/// and its arguments are in a0, a1 and a2. The calls are exit (1), write (2), getpid (7), sbrk (8), fork (9), wait (10)
/// and yield (18); every other number answers ENOSYS. A write answers EBADF where the descriptor stands for nothing that
/// is open to write, then EINVAL where the count is above 0x7fffffff, then 0 where it is 0; else it makes its first
/// piece, of at most 16 bytes, which answers EFAULT where a byte of it cannot be read. An sbrk answers where the break
/// was, and ENOMEM where the break would pass 0x00400000 or fewer user frames are free than the heap takes pages more. A
/// fork answers EAGAIN where no slot can be taken or all 256 pids have been given away, then ENOMEM where fewer user
/// frames are free than the process has pages, and else the pid of its child. A wait answers ECHILD where the process has
/// no child, and leaves it in the call where none of them has ended; then EFAULT where the address is not 0 and not a
/// multiple of four in a page that it can write; else the least pid of the children that have ended. Errors change
/// nothing else. Writes on files are not built: the trap of one is served, and the process is left before its call.
///
/// Every record decodes, each page of the process has a frame, and `now.user_frames` says how many user frames there
/// are.
#[tactic(auto, unfolding(crate::specs::Planned::planned_call))]
pub fn enter_call<V: RecordView>(view: &V, slot: u32, bank: &Bank, now: &Now) -> Service
    requires can { CanCall (V.records view.now) slot }
    requires outside { IsOutside ((V.records view.now).procs slot) }
    requires frames { now.now.user_frames ≡ (V.records view.now).map.user_frames }
    requires few { now.now.user_frames ≤ 384 }
    ensures call { IsCallOf (V.records view.now) (V.words view.now) slot now.now.trap bank.now result }
    ensures doable { IsDoable (V.records view.now) (V.words view.now) slot result }
{
    let process = ProcRec {
        pc: bank.pc,
        regs: bank.regs,
        ..view.proc(slot).unwrap()
    };
    let caller = Caller {
        slot,
        process,
        head: view.head().unwrap(),
        trap: now.trap,
    };
    serve(view, &caller, bank.regs.get(NUMBER), now.user_frames)
}

/// A further piece of the call that the live process in the slot is in, in the trap `now.trap`.
///
/// A piece of a wait (10) is the call again. A piece of a write (2) takes at most 16 bytes. The call answers its count
/// with the last piece, and the bytes done before where a byte of the piece cannot be read; else the process stays in the
/// call. Pieces of other calls and of writes on files are not built: the trap of one is served, and the process is left
/// as it is.
///
/// Every record decodes, and each page of the process has a frame.
#[tactic(auto, unfolding(crate::specs::Planned::planned_piece))]
pub fn next_piece<V: RecordView>(view: &V, slot: u32, now: &Now) -> Service
    requires can { CanCall (V.records view.now) slot }
    requires inside { IsInside (V.records view.now) ((V.records view.now).procs slot) }
    ensures piece { IsPieceOf (V.records view.now) (V.words view.now) slot now.now.trap result }
    ensures doable { IsDoable (V.records view.now) (V.words view.now) slot result }
{
    let caller = Caller {
        slot,
        process: view.proc(slot).unwrap(),
        head: view.head().unwrap(),
        trap: now.trap,
    };
    match caller.process.call {
        WRITE => {
            let description = look(view, slot, caller.argument(0)).unwrap();
            piece(view, &caller, &description, caller.process.done)
        }
        WAIT => wait(view, &caller),
        _ => Service::Once {
            patch: caller.is_unchanged(),
        },
    }
}
