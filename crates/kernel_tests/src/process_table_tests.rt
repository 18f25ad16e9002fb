//! What is chosen and what is set, by the records of an area.

ghost use Rattle.std.specs.Prelude.{◌<◌, ◌≡◌, true, IsTrue};
ghost use Rattle.process_table.specs.Choosing.{HasSignal};
ghost use Rattle.process_table.specs.Slots.{is_live_one};

use ow_base::{Bank, Now, Regs};
use process_table::{Choice, choose, end_process, save_bank, take_signal};
use record_layouts::{AnyRec, AreaView, Patch, RecordView};
use std::alloc::{AllocError, Global};
use std::test::Fail;
use test_fixtures::{AREA_FRAMES, DESC, EXIT, HEAD, MAP, PROC, SIG, SmallMemory, TERM, TERM_0};

// A process by its state, pid, parent and call, and the signals that are pending.
type Held = [u32; 5];

const FREE: Held = [0; 5];

// A kernel with these processes in its first slots and none in the others. All have one handler for each signal,
// and a descriptor of terminal 0, of whose typed bytes three are consumed.
fn kernel(
    alloc: Global,
    last: u32,
    next: u32,
    handler: u32,
    front: &[Held],
) -> Result<SmallMemory, AllocError> {
    let mut memory = SmallMemory::new(alloc, MAP.area_base, AREA_FRAMES)?;
    memory.put_record(0, 16, &[HEAD, 1, 5, last, next]);
    memory.put_record(3584, 16, &[DESC, 2, 0, 1]);
    memory.put_record(TERM_0, 16, &[TERM, 0, 3, 0, 3]);
    for slot in 0..16 {
        let held = front.get(slot).copied().unwrap_or(FREE);
        put_process(&mut memory, slot, handler, held);
    }
    Ok(memory)
}

// Puts a process, its signals and how it ended.
fn put_process(memory: &mut SmallMemory, slot: usize, handler: u32, held: Held)
    requires { slot < 16 }
{
    let [state, pid, parent, call, pending] = held;
    let pages = if state == 1 || state == 2 { 1 } else { 0 };
    let process = [
        PROC, state, pid, parent, call, 0, pages, 0, 0, 0, 0, 0, 0, pages,
    ];
    memory.put_record(1024 + 128 * slot, 128, &process);
    let mut signals = [handler; 12];
    signals[..3].copy_from_slice(&[SIG, pid, pending]);
    memory.put_record(3072 + 32 * slot, 32, &signals);
    if state != 0 {
        let exit = if pages == 1 { 1 } else { 2 };
        memory.put_record(11260 + 4 * (pid % 64) as usize, 4, &[EXIT, exit]);
    }
}

// Processes, the last pid, how many typed bytes have arrived of five, and what is chosen.
const CHOICES: [(&[Held], u32, u32, Choice); 15] = [
    // By pid, from the one behind the last on, and not by slot.
    (
        &[[1, 5, 0, 0, 0], [1, 2, 0, 0, 0], [1, 9, 0, 0, 0]],
        0,
        0,
        Choice::User(1),
    ),
    (
        &[[1, 5, 0, 0, 0], [1, 2, 0, 0, 0], [1, 9, 0, 0, 0]],
        2,
        0,
        Choice::User(0),
    ),
    (
        &[[1, 5, 0, 0, 0], [1, 2, 0, 0, 0], [1, 9, 0, 0, 0]],
        5,
        0,
        Choice::User(2),
    ),
    (
        &[[1, 5, 0, 0, 0], [1, 2, 0, 0, 0], [1, 9, 0, 0, 0]],
        9,
        0,
        Choice::User(1),
    ),
    (&[[1, 5, 0, 0, 0], [2, 2, 0, 2, 0]], 5, 0, Choice::Piece(1)),
    // Reads and waits.
    (&[[2, 1, 0, 3, 0]], 0, 3, Choice::Idle),
    (&[[2, 1, 0, 3, 0]], 0, 4, Choice::Piece(0)),
    (&[[2, 1, 0, 3, 0]], 0, 5, Choice::Piece(0)),
    (&[[2, 1, 0, 10, 0]], 0, 0, Choice::Piece(0)),
    (&[[2, 1, 0, 10, 0], [2, 2, 1, 3, 0]], 0, 3, Choice::Idle),
    (
        &[[2, 1, 0, 10, 0], [2, 2, 1, 3, 0], [3, 3, 1, 0, 0]],
        0,
        3,
        Choice::Piece(0),
    ),
    // Signals, a call that there is none of, and none that is live.
    (
        &[[2, 1, 0, 3, 0x200], [1, 2, 0, 0, 0]],
        2,
        3,
        Choice::Signal(0),
    ),
    (&[[1, 1, 0, 0, 2], [1, 2, 0, 0, 0]], 2, 3, Choice::Signal(0)),
    (&[[2, 1, 0, 4, 0]], 0, 0, Choice::Idle),
    (&[FREE, [3, 1, 0, 0, 0]], 0, 0, Choice::AllEnded),
];

// What is known in trap 9 where so many of five typed bytes have arrived.
fn now_with(arrived: u32) -> Now {
    Now {
        trap: 9,
        user_frames: 0,
        sectors: 0,
        arrived: [arrived, 0],
        typed: [5, 0],
    }
}

#[test]
fn chooses(rt: HostRuntime) -> Result<(), Fail> {
    for (front, last, arrived, want) in CHOICES {
        let memory = kernel(rt.alloc(), last, 10, 0, front)?;
        assert_eq!(rt;
            choose(&AreaView::new(&memory, MAP), &now_with(arrived)),
            want,
            "{front:?} {last}"
        );
    }
    Ok(())
}

// What a patch sets: trap and pid of the head, state, status and pc of the process, and how it ended or which signals
// are pending.
fn told(patch: &Patch) -> [u32; 6] {
    let mut words = [0; 6];
    for item in patch.items.as_slice() {
        match item.rec {
            AnyRec::Head(head) => {
                words[0] = head.served;
                words[1] = head.last;
            }
            AnyRec::Proc(process) => {
                words[2] = process.state;
                words[3] = process.status;
                words[4] = process.pc;
            }
            AnyRec::Exit(exit) => words[5] = exit.value,
            AnyRec::Sig(signals) => words[5] = signals.pending,
            _ => {}
        }
    }
    words
}

// The slot holds a live process.
fn holds_live<V: RecordView>(view: &V, slot: u32) -> bool
    requires { slot < 16 }
    ensures { IsTrue result → is_live_one ((V.records view.now).procs slot) ≡ true }
{
    view.proc(slot)
        .is_some_and(|process| process.state == 1 || process.state == 2)
}

// The process in slot 0 is next, and a signal goes to it.
fn gets_signal<V: RecordView>(view: &V) -> bool
    ensures { IsTrue result → HasSignal (V.records view.now) 0 }
{
    matches!(choose(view, &now_with(0)), Choice::Signal(0))
}

// What the process in slot 0 leaves: where it ends, where its bank is saved, and where a signal goes to it.
fn left_by<V: RecordView>(view: &V) -> [[u32; 6]; 3] {
    let mut left = [[0; 6]; 3];
    if view.head().is_none() || !holds_live(view, 0) {
        return left;
    }
    let bank = Bank {
        pc: 0x1_0404,
        regs: Regs::new(),
    };
    left[0] = told(&end_process(view, 0, 0x20d, 9));
    left[1] = told(&save_bank(view, 0, &bank, 9));
    if gets_signal(view) {
        left[2] = told(&take_signal(view, 0, 9));
    }
    left
}

#[test]
fn patches_tell_what_is_left(rt: HostRuntime) -> Result<(), Fail> {
    // A process outside a call and one in a wait, by handler; and one that has ended.
    for (held, handler, saved, signalled) in [
        ([1, 6, 0, 0, 0], 0, 1, [0; 6]),
        ([2, 6, 0, 10, 0x210], 0, 2, [9, 6, 3, 0x109, 0, 0x109]),
        ([2, 6, 0, 10, 0x210], 1, 2, [9, 6, 2, 0, 0, 0x10]),
        ([2, 6, 0, 10, 0x18], 0x808, 2, [9, 6, 1, 0, 0x808, 0x10]),
    ] {
        let memory = kernel(rt.alloc(), 0, 10, handler, &[held])?;
        let left = left_by(&AreaView::new(&memory, MAP));
        let ended = [9, 6, 3, 0x20d, 0, 0x20d];
        assert_eq!(rt;
            left,
            [ended, [9, 6, saved, 0, 0x1_0404, 0], signalled],
            "{held:?}"
        );
    }
    let memory = kernel(rt.alloc(), 0, 10, 0, &[[3, 6, 0, 0, 0]])?;
    assert_eq!(rt; left_by(&AreaView::new(&memory, MAP)), [[0; 6]; 3]);
    Ok(())
}
