//! What the calls of one process ask for. What each must be is worked out by hand.
ghost use Rattle.std.specs.Prelude.{◌≡◌, slice_index};
ghost use Rattle.ow_base.specs.UserStep.{register};

use crate::small_view::SmallView;
use ow_base::{Bank, Now, Regs};
use record_layouts::{AnyRec, Patch, ProcRec, RecordId};
use syscalls::{Service, enter_call, next_piece};

const NOW: Now = Now {
    trap: 41,
    user_frames: 16,
    sectors: 4,
    arrived: [0, 0],
    typed: [0, 0],
};

// Where the process stands when it makes a call, by its bank.
const CALL: u32 = 0x0002_0010;

// What becomes of the process: it goes on behind its call or in it, with this in a0, or it ends.
#[derive(Clone, Copy, Debug, PartialEq, Eq)]
enum After {
    Behind(u32),
    Inside { done: u32, a0: u32 },
    Ended(u32),
    Wrong,
}

use After::{Behind, Ended, Inside, Wrong};

// What is to be done before the patch: bytes go to terminal 1, by their address and number, so many pages are prepared,
// the pages are copied for a slot, or a word is stored at an address.
#[derive(Clone, Copy, Debug, PartialEq, Eq)]
enum Work {
    Nothing,
    Bytes(u32, u32),
    Pages(u32),
    Copies(u32),
    Word(u32, u32),
}

use Work::{Bytes, Copies, Nothing, Pages, Word};

// What is to be done, and what becomes of the process.
type Asked = (Work, After);

fn regs_with(number: u32, arguments: [u32; 3]) -> Regs
    ensures descriptor { register result 10 ≡ slice_index arguments 0 }
    ensures count { register result 12 ≡ slice_index arguments 2 }
{
    let mut regs = Regs::new();
    regs.set(10, arguments[0]);
    regs.set(11, arguments[1]);
    regs.set(12, arguments[2]);
    regs.set(17, number);
    regs
}

// What the record tells that the patch has for the process, which called at `pc`.
fn told_by(process: &ProcRec, pc: u32, records: usize) -> After {
    let a0 = process.regs.get(10);
    match (process.state, process.call, process.done) {
        (1, 0, 0) if records == 2 && process.pc == pc.wrapping_add(4) => Behind(a0),
        (2, 2 | 3, done) if records == 2 && process.pc == pc => Inside { done, a0 },
        (3, 0, 0) if records == 3 => Ended(process.status),
        _ => Wrong,
    }
}

// What becomes of the process by the patch, which ends trap 41 and names pid 9 as the last one.
fn becomes(patch: &Patch, pc: u32) -> After {
    let items = patch.items.as_slice();
    let (Some(first), Some(second)) = (items.first(), items.get(1)) else {
        return Wrong;
    };
    match (first.id, first.rec, second.id, second.rec) {
        (RecordId::Head, AnyRec::Head(head), RecordId::Proc(3), AnyRec::Proc(process))
            if head.served == 41 && head.last == 9 && head.next == 10 => {
            told_by(&process, pc, items.len())
        }
        _ => Wrong,
    }
}

fn asked(service: &Service, pc: u32) -> Asked {
    match service {
        Service::Once { patch } => (Nothing, becomes(patch, pc)),
        Service::TtyWrite {
            tty,
            from,
            len,
            patch,
        } => {
            let work = if *tty == 1 {
                Bytes(*from, *len)
            } else {
                Nothing
            };
            (work, becomes(patch, pc))
        }
        Service::Grow { count, patch } => (Pages(*count), becomes(patch, pc)),
        Service::Fork { child, patch } => (Copies(*child), becomes(patch, pc)),
        Service::PutStatus {
            addr,
            status,
            patch,
        } => (Word(*addr, *status), becomes(patch, pc)),
    }
}

// What the process asks for that makes this call.
fn entered(number: u32, arguments: [u32; 3], reads_only: bool) -> Asked {
    let view = SmallView {
        regs: Regs::new(),
        inside: false,
        call: 0,
        done: 0,
        reads_only,
    };
    let bank = Bank {
        pc: CALL,
        regs: regs_with(number, arguments),
    };
    view.can_call();
    asked(&enter_call(&view, 3, &bank, &NOW), CALL)
}

// What the process asks for that goes on in a call through descriptor 0: in a write, or in a read of which nothing is
// done.
fn continued(call: u32, address: u32, count: u32, done: u32) -> Option<Asked> {
    if done >= count || count > 0x7fff_ffff || call != 2 && (call != 3 || done != 0) {
        return None;
    }
    let view = SmallView {
        regs: regs_with(call, [0, address, count]),
        inside: true,
        call,
        done,
        reads_only: false,
    };
    view.can_call();
    Some(asked(&next_piece(&view, 3, &NOW), 0x0001_0010))
}

const EBADF: After = Behind(0xffff_fff7);

const ECHILD: After = Behind(0xffff_fff6);

const EAGAIN: After = Behind(0xffff_fff5);

const ENOMEM: After = Behind(0xffff_fff4);

const EFAULT: After = Behind(0xffff_fff2);

const EINVAL: After = Behind(0xffff_ffea);

const ENOSYS: After = Behind(0xffff_ffda);

// The number of the call, its arguments, and whether the descriptor only reads; what is to be
// done, and what becomes of the process.
const CALLS: [(u32, [u32; 3], bool, Work, After); 28] = [
    (2, [1, 0, 0], false, Nothing, EBADF),
    (2, [8, 0x10000, 3], false, Nothing, EBADF),
    (2, [0xffff_ffff, 0x10000, 3], false, Nothing, EBADF),
    (2, [0, 0x10000, 0x8000_0000], true, Nothing, EBADF),
    (2, [0, 0, 0x8000_0000], false, Nothing, EINVAL),
    (2, [0, 0, 0x7fff_ffff], false, Nothing, EFAULT),
    (2, [0, 0, 0], false, Nothing, Behind(0)),
    (2, [0, 0x10ff8, 9], false, Nothing, EFAULT),
    (2, [0, 0x7fff_fff8, 16], false, Nothing, EFAULT),
    (2, [0, 0xffff_ffff, 2], false, Nothing, EFAULT),
    (2, [0, 0x10ff8, 8], false, Bytes(0x10ff8, 8), Behind(8)),
    (2, [0, 0x10000, 16], false, Bytes(0x10000, 16), Behind(16)),
    (
        2,
        [0, 0x10000, 17],
        false,
        Bytes(0x10000, 16),
        Inside { done: 16, a0: 0 },
    ),
    (
        2,
        [0, 0x7fff_fff0, 16],
        false,
        Bytes(0x7fff_fff0, 16),
        Behind(16),
    ),
    (1, [0x1ff, 0, 0], false, Nothing, Ended(0xff)),
    (1, [0x100, 0, 0], false, Nothing, Ended(0)),
    (7, [5, 0, 0], false, Nothing, Behind(9)),
    (8, [0, 0, 0], false, Pages(0), Behind(0x11000)),
    (8, [1, 0, 0], false, Pages(1), Behind(0x11000)),
    // Of 16 frames its pages have five.
    (8, [0xb000, 0, 0], false, Pages(11), Behind(0x11000)),
    (8, [0xb001, 0, 0], false, Nothing, ENOMEM),
    (8, [0x3e_f001, 0, 0], false, Nothing, ENOMEM),
    (8, [0xffff_ffff, 0, 0], false, Nothing, ENOMEM),
    // No slot can be taken, and no process has this one as its parent.
    (9, [5, 0, 0], false, Nothing, EAGAIN),
    (10, [5, 0, 0], false, Nothing, ECHILD),
    (18, [5, 0, 0], false, Nothing, Behind(5)),
    (3, [0, 0x10000, 3], false, Nothing, ENOSYS),
    (0xffff_ffff, [5, 0, 0], false, Nothing, ENOSYS),
];

// The call, an address, a count and the bytes done; what is to be done, and what becomes of the process.
const PIECES: [([u32; 4], Work, After); 7] = [
    (
        [2, 0x10000, 40, 16],
        Bytes(0x10010, 16),
        Inside { done: 32, a0: 0 },
    ),
    ([2, 0x10000, 40, 32], Bytes(0x10020, 8), Behind(40)),
    ([2, 0x10000, 48, 32], Bytes(0x10020, 16), Behind(48)),
    ([2, 0x10fe8, 100, 16], Nothing, Behind(16)),
    ([2, 0x11000, 40, 0], Nothing, EFAULT),
    ([2, 0xffff_fff0, 40, 16], Nothing, Behind(16)),
    // A read is left as it is.
    ([3, 0x10000, 40, 0], Nothing, Inside { done: 0, a0: 0 }),
];

#[test]
fn calls_and_pieces(rt: HostRuntime) {
    for (number, arguments, reads_only, piece, becomes) in CALLS {
        let asked = entered(number, arguments, reads_only);
        assert_eq!(rt; asked, (piece, becomes), "call {number} {arguments:?}");
    }
    for ([call, address, count, done], piece, becomes) in PIECES {
        let asked = continued(call, address, count, done);
        assert_eq!(rt;
            asked,
            Some((piece, becomes)),
            "{done} of {count} at {address:x}"
        );
    }
}
