//! Tests of the plant: displays, page tables that lead anywhere, and points at which it refuses.

ghost use Rattle.std.specs.Prelude.{◌≡◌, ◌≤◌, ◌<◌, true, false, length, IfOk};
ghost use Rattle.ow_base.specs.declared.machine.AreaId.TheVariants.{A};
ghost use Rattle.phys_memory.specs.Halves.{words_beside};
ghost use Rattle.ow_plant.specs.State.{IsArmed, silent_device};

use ow_base::{AreaId, Bank, Came, Fault, PanicRecord, Regs, Shape, WordSource};
use ow_plant::{DeadMemory, HandOver, Own, Plant, UserEnd};
use std::alloc::{AllocError, Global};
use std::test::Fail;
use test_fixtures::point;

/// Bytes, written so often, where the cursor is then, and a byte that is seen at a row and a column.
struct Shown {
    bytes: &'static [u8],
    times: u32,
    cursor: (u32, u32),
    place: (u32, usize),
    seen: u8,
}

const SHOWN: [Shown; 5] = [
    Shown {
        bytes: b"",
        times: 1,
        cursor: (0, 0),
        place: (23, 79),
        seen: b' ',
    },
    Shown {
        bytes: b"\x08ab\x08c\rd\xff\x1f",
        times: 1,
        cursor: (0, 1),
        place: (0, 1),
        seen: b'c',
    },
    Shown {
        bytes: b"a\n",
        times: 24,
        cursor: (23, 0),
        place: (22, 0),
        seen: b'a',
    },
    Shown {
        bytes: b"~",
        times: 1920,
        cursor: (23, 0),
        place: (22, 79),
        seen: b'~',
    },
    Shown {
        bytes: b"~",
        times: 1921,
        cursor: (23, 1),
        place: (23, 0),
        seen: b'~',
    },
];

const SHAPE: Shape = Shape {
    user_frames: 16,
    sectors: 1,
    quantum: 1,
    budget: 10,
};

/// A shape of which a terminal has room for so many bytes.
const DRAWN: Shape = Shape {
    budget: 200,
    ..SHAPE
};

const ROOM: usize = 3200;

/// Writes bytes on terminal 1, as far as it has room.
fn write(plant: &mut Plant, bytes: &[u8])
    requires armed { plant.old.armed ≡ true }
    requires room { plant.old.tty1.room ≡ 3200 }
    ensures armed { plant.new.armed ≡ true }
    ensures room { plant.new.tty1.room ≡ 3200 }
{
    for byte in bytes {
        if plant.tape(1).len() < ROOM {
            let _ = plant.put(1, *byte);
        }
    }
}

/// A machine on which the bytes of a case were written on terminal 1.
fn written(alloc: Global, case: &Shown) -> Result<Plant, AllocError>
    ensures { IfOk result (λ plant. plant.armed ≡ true) }
{
    let mut plant = Plant::new(alloc);
    plant.arm(alloc, DRAWN, &[], &[], &[])?;
    for _ in 0..case.times {
        write(&mut plant, case.bytes);
    }
    Ok(plant)
}

#[test]
fn draws(rt: HostRuntime) -> Result<(), Fail> {
    for case in &SHOWN {
        let plant = written(rt.alloc(), case)?;
        let display = plant.display(1);
        let (row, col) = case.place;
        assert_eq!(rt; display.at(), case.cursor);
        assert!(rt; row < 24 && col < 80);
        assert_eq!(rt; display.row(row)[col], case.seen);
    }
    Ok(())
}

/// Sets a word, where its frame is there.
#[tactic(auto, unfolding(phys_memory::specs::Memory::words_of))]
fn set(plant: &mut Plant, frame: u32, word: u32, value: u32) -> bool
    requires armed { plant.old.armed ≡ true }
    requires word { word < 1024 }
    ensures armed { plant.new.armed ≡ true }
    ensures sized { IsArmed plant.old → IsArmed plant.new }
    ensures silent { plant.new.tty1 ≡ plant.old.tty1 }
    ensures runs { plant.new.reviving ≡ plant.old.reviving }
    ensures area { plant.new.live ≡ plant.old.live }
{
    match WordSource::load(plant, frame, word) {
        Some(_) => plant.store(frame, word, value).is_ok(),
        None => false,
    }
}

/// The frames of a root table, of the table of the first pages, and of those pages: page 0 is code, which begins with an
/// instruction that does nothing, and page 1 is values.
const ROOT: u32 = 17;

const TABLE: u32 = 18;

const CODE: u32 = 129;

const VALUES: u32 = 130;

/// A word of the tables that is changed, by frame and place, where the program is, and the cause of the fault of
/// its next step: a page fault of the fetch, or an access fault where a frame is not there.
const BROKEN: [(u32, u32, u32, u32, u32); 7] = [
    (ROOT, 0, 0, 0, 12),
    (ROOT, 0, 400 * 1024 + 1, 0, 1),
    (ROOT, 0, ROOT * 1024 + 1, 0, 12),
    (TABLE, 0, 0, 0, 12),
    (TABLE, 0, 0xffff_fc5b, 0, 1),
    (TABLE, 0, CODE * 1024 + 0xd7, 0, 12),
    (TABLE, 1, VALUES * 1024 + 0xd7, 4096, 12),
];

/// How the turn of a program ends that stands at `pc`, under tables of which this word is changed.
fn turn_under(
    alloc: Global,
    frame: u32,
    word: u32,
    entry: u32,
    pc: u32,
) -> Result<UserEnd, AllocError>
    requires { word < 1024 }
{
    let mut plant = Plant::new(alloc);
    plant.arm(alloc, SHAPE, &[], &[], &[])?;
    let _ = set(&mut plant, ROOT, 0, TABLE * 1024 + 1);
    let _ = set(&mut plant, TABLE, 0, CODE * 1024 + 0x5b);
    let _ = set(&mut plant, TABLE, 1, VALUES * 1024 + 0xd7);
    let _ = set(&mut plant, CODE, 0, 0x0000_0013);
    let _ = set(&mut plant, frame, word, entry);
    let regs = Regs::new();
    plant.to_user(1, &Bank { pc, regs }, ROOT);
    Ok(plant.user_step())
}

#[test]
fn tables_may_lead_anywhere(rt: HostRuntime) -> Result<(), Fail> {
    for (frame, word, entry, pc, cause) in BROKEN {
        assert!(rt; word < 1024);
        let end = turn_under(rt.alloc(), frame, word, entry, pc)?;
        assert_eq!(rt; end, UserEnd::Fault(Fault { cause, value: pc }));
    }
    Ok(())
}

/// A machine that is armed with a panic in a trap, and one in the trap behind it at its first store.
fn with_points(alloc: Global, trap: u32, store: u32) -> Result<Plant, AllocError>
    requires first { 1 ≤ trap }
    requires last { trap < 100 }
    ensures armed { IfOk result (λ plant. plant.armed ≡ true) }
    ensures silent { IfOk result (λ plant. plant.tty1 ≡ silent_device 160) }
{
    let mut plant = Plant::new(alloc);
    let points = [point(trap, store), point(trap + 1, 0)];
    plant.arm(alloc, SHAPE, &[], &[], &points)?;
    Ok(plant)
}

/// A trap that makes so many stores, in the first words of the boot frame; whether none of it was refused.
fn serve(plant: &mut Plant, stores: u32) -> bool
    requires { plant.old.armed ≡ true }
    ensures armed { plant.new.armed ≡ true }
    ensures silent { plant.new.tty1 ≡ plant.old.tty1 }
{
    plant.enter(Came::Kernel, 1);
    for word in 0..stores {
        if !set(plant, 0, word % 1024, 7) {
            return false;
        }
    }
    plant.leave().is_ok()
}

/// What two traps, with 3 stores and with 2, come to: whether nothing was refused in either, the trap that runs or is to
/// come, the stores made in the one that was begun last and in all, and whether then a byte is written, of which the
/// cursor tells too, and the trap is left once more.
#[derive(Clone, Copy, Debug, PartialEq, Eq)]
struct Outcome {
    served: (bool, bool),
    trap: u32,
    made: (u32, u64),
    goes_on: (bool, u32, bool),
}

fn two_traps(alloc: Global, trap: u32, store: u32) -> Result<Outcome, AllocError>
    requires first { 1 ≤ trap }
    requires last { trap < 100 }
{
    let mut plant = with_points(alloc, trap, store)?;
    let first = serve(&mut plant, 3);
    let second = first && serve(&mut plant, 2);
    let trap = plant.now().trap;
    let made = (plant.stores_made(), plant.all_stores());
    let written = plant.put(1, b'x').is_ok();
    let (_, col) = plant.display(1).at();
    Ok(Outcome {
        served: (first, second),
        trap,
        made,
        goes_on: (written, col, plant.leave().is_ok()),
    })
}

/// The trap and the store of a point, in which of the two traps nothing is refused, and the stores made.
const POINTS: [(u32, u32, (bool, bool), (u32, u64)); 6] = [
    (1, 0, (false, false), (0, 0)),
    (1, 2, (false, false), (2, 2)),
    (1, 3, (false, false), (3, 3)),
    (2, 1, (true, false), (1, 4)),
    (2, 0xffff_ffff, (true, false), (2, 5)),
    (3, 0, (true, true), (2, 5)),
];

// Where something is refused the trap is not left, and nothing is done from then on.
#[test]
fn points_refuse(rt: HostRuntime) -> Result<(), Fail> {
    for (trap, store, served, made) in POINTS {
        assert!(rt; 1 <= trap && trap < 100);
        let goes_on = (served.1, u32::from(served.1), served.1);
        let wanted = Outcome {
            served,
            trap,
            made,
            goes_on,
        };
        assert_eq!(rt; two_traps(rt.alloc(), trap, store)?, wanted);
    }
    Ok(())
}

/// The processor of a program that made a call.
fn calling() -> Bank {
    let mut regs = Regs::new();
    regs.set(17, 2);
    Bank { pc: 0x10010, regs }
}

/// A machine in whose trap 1, a call of process 3, so many stores are made before the first that is refused: a word is set
/// in each half, and a byte is written on terminal 1. The end of the trap is refused, then or else.
fn broken(alloc: Global, store: u32) -> Result<Plant, AllocError>
    ensures armed { IfOk result IsArmed }
    ensures runs { IfOk result (λ plant. plant.reviving ≡ false) }
    ensures area { IfOk result (λ plant. plant.live ≡ A) }
    ensures room { IfOk result (λ plant. plant.tty1.room ≡ 160) }
    ensures few { IfOk result (λ plant. length plant.tty1.tape ≤ 1) }
{
    let mut plant = Plant::new(alloc);
    let points = [point(1, store), point(2, 0)];
    plant.arm(alloc, SHAPE, &[], &[], &points)?;
    plant.to_user(3, &calling(), ROOT);
    plant.enter(Came::Call, 3);
    let _ = set(&mut plant, CODE, 5, 77);
    let _ = set(&mut plant, OWN, 5, 78);
    let _ = plant.put(1, b'x');
    Ok(plant)
}

/// A frame for pages of half B.
const OWN: u32 = 273;

/// Enters the panic, where the end of the trap is refused.
fn panicked(plant: &mut Plant) -> bool
    requires armed { IsArmed plant.old }
    requires runs { plant.old.reviving ≡ false }
    requires area { plant.old.live ≡ A }
    requires room { plant.old.tty1.room ≡ 160 }
    requires few { length plant.old.tty1.tape ≤ 1 }
    ensures armed { IsArmed plant.new }
    ensures area { plant.new.live ≡ A }
    ensures revives { result ≡ true → plant.new.reviving ≡ true }
    ensures room { plant.new.tty1.room ≡ 160 }
    ensures few { length plant.new.tty1.tape ≤ 1 }
{
    if plant.leave().is_ok() {
        return false;
    }
    plant.panic_entry();
    true
}

/// What the dead kernel's words say at some places, and what the machine tells beside them.
#[derive(Clone, Copy, Debug, PartialEq, Eq)]
struct Remains {
    /// The first word of memory, that of the dead half, and that of the other one.
    words: (Option<u32>, Option<u32>, Option<u32>),
    counts: (u32, u32),
    handover: Option<HandOver>,
    area: AreaId,
    frames: u32,
}

fn read_all<M: DeadMemory>(memory: &M) -> Remains {
    Remains {
        words: (memory.load(0, 0), memory.load(CODE, 5), memory.load(OWN, 5)),
        counts: (memory.count(0), memory.count(1)),
        handover: memory.handover(),
        area: memory.area(),
        frames: memory.user_frames(),
    }
}

/// What a kernel that takes over comes to: whether none of its stores was refused, and what it reads in a frame of its own
/// and in one of the dead half.
#[derive(Clone, Copy, Debug, PartialEq, Eq)]
struct Stored {
    all: bool,
    own: Option<u32>,
    dead: Option<u32>,
}

/// Makes one store of each kind in what is lent.
fn store_each(own: &mut Own<'_>) -> Stored
    requires room { own.old.lent.now.tty1.room ≡ 160 }
    requires few { length own.old.lent.now.tty1.tape ≤ 1 }
    ensures length { length own.new.lent.now.own ≡ length own.old.lent.now.own }
    ensures place { own.new.place ≡ own.old.place }
    ensures same_reference { own.new.lent.ghost_name ≡ own.old.lent.ghost_name }
{
    let all = own.has_frame(OWN)
        && own.store(OWN, 7, 9).is_ok()
        && own.put(1, b'y').is_ok()
        && own.paint(0, 3, &[b'r'; 80]).is_ok()
        && own.cursor(0, 4, 5).is_ok();
    Stored {
        all,
        own: own.load(OWN, 7),
        dead: own.load(CODE, 5),
    }
}

/// Makes one store of each kind in what is lent, and tells what was left for reading then. What is left stays as it was.
fn revived(plant: &mut Plant) -> (Stored, Remains)
    requires armed { IsArmed plant.old }
    requires revives { plant.old.reviving ≡ true }
    requires area { plant.old.live ≡ A }
    requires room { plant.old.tty1.room ≡ 160 }
    requires few { length plant.old.tty1.tape ≤ 1 }
    ensures armed { plant.new.armed ≡ true }
    ensures area { plant.new.live ≡ A }
    ensures revives { plant.new.reviving ≡ true }
    ensures dead { words_beside plant.new.memory A ≡ words_beside plant.old.memory A }
{
    let (dead, own) = plant.resurrection();
    let Own { lent, place } = own;
    let mut own = Own { lent, place };
    let stored = store_each(&mut own);
    (stored, read_all(&dead))
}

/// The trap of a panic, the stores made in it and the store that was listed, whether the end of the trap was refused, and
/// the process.
fn stands_of(entry: &PanicRecord) -> (u32, u32, u32, bool, u32) {
    (
        entry.trap,
        entry.store,
        entry.listed,
        entry.at_leave,
        entry.pid,
    )
}

/// What is seen of terminal 0 at a row and of its cursor, and of terminal 1 at its first place.
#[derive(Clone, Copy, Debug, PartialEq, Eq)]
struct Sights {
    row: u8,
    cursor: (u32, u32),
    first: u8,
}

fn seen(plant: &Plant) -> Sights
    requires { plant.now.armed ≡ true }
{
    Sights {
        row: plant.display(0).row(3)[79],
        cursor: plant.display(0).at(),
        first: plant.display(1).row(0)[0],
    }
}

/// A store of trap 1 that is refused; how many were made and whether the end of the trap was refused; the words of the two
/// halves, and the bytes written on terminal 1.
const PANICS: [(u32, u32, bool, (u32, u32), u32); 5] = [
    (0, 0, false, (0, 0), 0),
    (1, 1, false, (77, 0), 0),
    (2, 2, false, (77, 78), 0),
    (3, 3, true, (77, 78), 1),
    (9, 3, true, (77, 78), 1),
];

/// What is read after a panic: the words of the dead half and of the other one, and the bytes written on terminal 1.
fn what_is_left(dead: u32, own: Option<u32>, written: u32) -> Remains {
    let handover = HandOver {
        trap: 1,
        pid: 3,
        came: Came::Call,
        bank: calling(),
    };
    Remains {
        words: (Some(0x4841_4e44), Some(dead), own),
        counts: (0, written),
        handover: Some(handover),
        area: AreaId::A,
        frames: 16,
    }
}

const STORED: Stored = Stored {
    all: true,
    own: Some(9),
    dead: None,
};

const BLANK: Sights = Sights {
    row: b' ',
    cursor: (0, 0),
    first: b' ',
};

const REVIVED: Sights = Sights {
    row: b'r',
    cursor: (4, 5),
    first: b'y',
};

#[test]
fn panics_are_entered_and_ended(rt: HostRuntime) -> Result<(), Fail> {
    for (listed, store, at_leave, (dead, own), written) in PANICS {
        let mut plant = broken(rt.alloc(), listed)?;
        assert!(rt; panicked(&mut plant));
        assert_eq!(rt; plant.stores_made(), 0);
        assert_eq!(rt; seen(&plant), BLANK);
        let left = what_is_left(dead, None, written);
        assert_eq!(rt; revived(&mut plant), (STORED, left));
        assert_eq!(rt; seen(&plant), REVIVED);
        assert_eq!(rt; plant.stores_made(), 4);
        assert_eq!(rt; plant.tape(1).len(), written as usize + 1);
        assert_eq!(rt; WordSource::load(&plant, CODE, 5), Some(dead));
        assert!(rt; plant.set_live(AreaId::B).is_ok());
        assert_eq!(rt; plant.live(), AreaId::B);
        assert_eq!(rt; WordSource::load(&plant, OWN, 7), Some(9));
        let recorded = what_is_left(dead, Some(own), written);
        assert_eq!(rt; plant.history().len(), 1);
        for entry in plant.history() {
            assert_eq!(rt; stands_of(entry), (1, store, listed, at_leave, 3));
            assert_eq!(rt; read_all(entry), recorded);
        }
        plant.enter(Came::Kernel, 1);
        assert!(rt; plant.cursor(0, 0, 0).is_err());
        assert_eq!(rt; seen(&plant), REVIVED);
    }
    Ok(())
}
