//! What a call asks for, carried out by the kernel that runs.
ghost use Rattle.std.specs.Prelude.{◌≡◌, ◌⊎◌, ◌+◌, ◌<◌, ◌≤◌, [], ◌∷◌, true, Some, None, length, is_some, IfSome, OnOk, OnErr};
ghost use Rattle.ow_base.specs.Pages.{is_readable};
ghost use Rattle.phys_memory.specs.Memory.{words_of};
ghost use Rattle.record_layouts.specs.declared.intent.Gate.TheVariants.{Closed};
ghost use Rattle.record_layouts.specs.Held.{IsCommittable};
ghost use Rattle.record_layouts.specs.Pages.{live_one};
ghost use Rattle.record_layouts.specs.Unix.Spaces.{takes_word};
ghost use Rattle.frame_table.specs.Maps.{framed_pages};
ghost use Rattle.address_space.specs.Spaces.{CanCopy, CanGrow, OnlyPrepares};
ghost use Rattle.ow_plant.specs.declared.refusal.Refusal.TheVariants as refusal;
ghost use Rattle.ow_plant.specs.State.{tty_of};
ghost use Rattle.intent_store.specs.Live.{IsStanding, IsUnstored, gate_held, held_of, may_refuse, records_held};
ghost use Rattle.syscalls.specs.Planned.{items_in, pages_in};
ghost use Rattle.syscalls.specs.Serving.{CanCall, IsDoable, IsWritable, plan_of};
ghost use Rattle.tty_screen.specs.Shown.{TerminalDecodes};
ghost use Rattle.kernel_traps.specs.Putting.{IsPut, IsPutPartly};
ghost use Rattle.kernel_traps.specs.Carrying.{HasRoom, HasRoomFor, IsCarriedOut, IsForkedBy, IsGrownBy, IsStatusPutBy, IsWritten, MayBeLeft, MayBeLeftOfPut, MayBeLeftOfWrite, bytes_of};
ghost use Rattle.kernel_traps.specs.Ending.{CanBeServed};

use address_space::{copy_space, grow, put_word, user_bytes};
use intent_store::Live;
use ow_base::Panicked;
use record_layouts::{Patch, Writer};
use syscalls::Service;
use tty_screen::byte_patch;

// The most bytes that one service writes.
const PIECE: usize = 16;

// Writes a byte on a terminal: its record counts the byte before it goes out.
#[tactic(auto, using(crate::proofs::Refusals::refusals_same, crate::proofs::Refusals::put_refused))]
fn put_byte(live: &mut Live<'_>, tty: u32, byte: u8) -> Result<(), Panicked>
    requires able { live.old.plant.now.refusal ≡ None }
    requires stands { IsStanding live.old.plant.now }
    requires tty { tty < 2 }
    requires decodes { TerminalDecodes (records_held live.old.plant.now) tty }
    requires room { length (tty_of live.old.plant.now tty).tape < (tty_of live.old.plant.now tty).room }
    ensures ok { OnOk result (IsPut (held_of live.old.plant.now) tty (byte ∷ []) (byte ∷ []) (held_of live.new.plant.now)) }
    ensures err { OnErr result ((held_of live.new.plant.now ≡ held_of live.old.plant.now)
        ⊎ IsPut (held_of live.old.plant.now) tty (byte ∷ []) [] (held_of live.new.plant.now)) }
    ensures stays { OnOk result (live.new.plant.now.refusal ≡ None) }
    ensures cause { OnErr result (live.new.plant.now.refusal ≡ Some refusal.Store) }
    ensures allowed { OnErr result (may_refuse live.old.plant.now ≡ true) }
    ensures unstored { IsUnstored live.old.plant.now live.new.plant.now }
    ensures still_stands { IsStanding live.new.plant.now }
    ensures same_reference { live.new.plant.ghost_name ≡ live.old.plant.ghost_name }
{
    let patch = byte_patch(&*live, tty, byte);
    live.commit(&patch.view())?;
    live.put(tty, byte)
}

// Writes bytes on a terminal, one after the other.
#[tactic(auto, using(crate::proofs::Refusals::refusals_put))]
fn put_bytes(live: &mut Live<'_>, tty: u32, bytes: &[u8]) -> Result<(), Panicked>
    requires able { live.old.plant.now.refusal ≡ None }
    requires stands { IsStanding live.old.plant.now }
    requires tty { tty < 2 }
    requires decodes { TerminalDecodes (records_held live.old.plant.now) tty }
    requires room { length (tty_of live.old.plant.now tty).tape + length bytes.now ≤ (tty_of live.old.plant.now tty).room }
    ensures ok { OnOk result (IsPut (held_of live.old.plant.now) tty bytes.now bytes.now (held_of live.new.plant.now)) }
    ensures err { OnErr result (IsPutPartly (held_of live.old.plant.now) tty bytes.now (held_of live.new.plant.now)) }
    ensures stays { OnOk result (live.new.plant.now.refusal ≡ None) }
    ensures cause { OnErr result (live.new.plant.now.refusal ≡ Some refusal.Store) }
    ensures allowed { OnErr result (may_refuse live.old.plant.now ≡ true) }
    ensures unstored { IsUnstored live.old.plant.now live.new.plant.now }
    ensures still_stands { IsStanding live.new.plant.now }
    ensures same_reference { live.new.plant.ghost_name ≡ live.old.plant.ghost_name }
{
    for byte in bytes {
        put_byte(live, tty, *byte)?;
    }
    Ok(())
}

// Writes a piece of the process in the slot on a terminal, and sets the records of a patch behind it. The bytes are read
// before any store.
fn write_piece(
    live: &mut Live<'_>,
    slot: u32,
    tty: u32,
    from: u32,
    len: u32,
    patch: &Patch,
) -> Result<(), Panicked>
    requires able { live.old.plant.now.refusal ≡ None }
    requires stands { IsStanding live.old.plant.now }
    requires can { CanCall (records_held live.old.plant.now) slot }
    requires writable { IsWritable (records_held live.old.plant.now) (words_of live.old.plant.now.memory) slot tty from len }
    requires patch { IsCommittable (records_held live.old.plant.now) patch.now.items.items }
    requires room { HasRoom live.old.plant.now }
    ensures ok { OnOk result (IsWritten (held_of live.old.plant.now) tty (bytes_of live.old.plant.now slot from len) patch.now.items.items (held_of live.new.plant.now)) }
    ensures shut { OnOk result (gate_held live.new.plant.now ≡ Closed) }
    ensures err { OnErr result (MayBeLeftOfWrite (held_of live.old.plant.now) tty (bytes_of live.old.plant.now slot from len) patch.now.items.items (held_of live.new.plant.now)) }
    ensures stays { OnOk result (live.new.plant.now.refusal ≡ None) }
    ensures cause { OnErr result (live.new.plant.now.refusal ≡ Some refusal.Store) }
    ensures allowed { OnErr result (may_refuse live.old.plant.now ≡ true) }
    ensures unstored { IsUnstored live.old.plant.now live.new.plant.now }
    ensures still_stands { IsStanding live.new.plant.now }
    ensures same_reference { live.new.plant.ghost_name ≡ live.old.plant.ghost_name }
{
    let mut room = [0; PIECE];
    let bytes = &mut room[..len as usize];
    let Ok(()) = user_bytes(&*live, slot, from, bytes) else {
        unreachable!()
    };
    put_bytes(live, tty, bytes)?;
    live.commit(&patch.view())
}

// Prepares so many pages behind the heap of the process in the slot, and sets the records of a patch, which count them.
fn grow_heap(live: &mut Live<'_>, slot: u32, count: u32, patch: &Patch) -> Result<(), Panicked>
    requires able { live.old.plant.now.refusal ≡ None }
    requires stands { IsStanding live.old.plant.now }
    requires slot { slot < 16 }
    requires goes { is_some (live_one ((records_held live.old.plant.now).procs slot)) ≡ true }
    requires can { IfSome ((records_held live.old.plant.now).procs slot) (CanGrow (records_held live.old.plant.now) slot count) }
    requires patch { IsCommittable (records_held live.old.plant.now) patch.now.items.items }
    ensures ok { OnOk result (IsGrownBy live.old.plant.now slot count patch.now.items.items (held_of live.new.plant.now)) }
    ensures shut { OnOk result (gate_held live.new.plant.now ≡ Closed) }
    ensures err { OnErr result (OnlyPrepares slot (held_of live.old.plant.now) (held_of live.new.plant.now)
        ⊎ IsGrownBy live.old.plant.now slot count patch.now.items.items (held_of live.new.plant.now)) }
    ensures stays { OnOk result (live.new.plant.now.refusal ≡ None) }
    ensures cause { OnErr result (live.new.plant.now.refusal ≡ Some refusal.Store) }
    ensures allowed { OnErr result (may_refuse live.old.plant.now ≡ true) }
    ensures unstored { IsUnstored live.old.plant.now live.new.plant.now }
    ensures still_stands { IsStanding live.new.plant.now }
    ensures same_reference { live.new.plant.ghost_name ≡ live.old.plant.ghost_name }
{
    grow(live, slot, count)?;
    live.commit(&patch.view())
}

// Copies the pages of the process in the slot for its child, and sets the records of a patch, which make the child.
fn fork_space(live: &mut Live<'_>, slot: u32, child: u32, patch: &Patch) -> Result<(), Panicked>
    requires able { live.old.plant.now.refusal ≡ None }
    requires stands { IsStanding live.old.plant.now }
    requires slot { slot < 16 }
    requires child { child < 16 }
    requires goes { is_some (live_one ((records_held live.old.plant.now).procs slot)) ≡ true }
    requires can { IfSome ((records_held live.old.plant.now).procs slot) (CanCopy (records_held live.old.plant.now) slot child) }
    requires patch { IsCommittable (records_held live.old.plant.now) patch.now.items.items }
    ensures ok { OnOk result (IsForkedBy live.old.plant.now slot child patch.now.items.items (held_of live.new.plant.now)) }
    ensures shut { OnOk result (gate_held live.new.plant.now ≡ Closed) }
    ensures err { OnErr result (OnlyPrepares child (held_of live.old.plant.now) (held_of live.new.plant.now)
        ⊎ IsForkedBy live.old.plant.now slot child patch.now.items.items (held_of live.new.plant.now)) }
    ensures stays { OnOk result (live.new.plant.now.refusal ≡ None) }
    ensures cause { OnErr result (live.new.plant.now.refusal ≡ Some refusal.Store) }
    ensures allowed { OnErr result (may_refuse live.old.plant.now ≡ true) }
    ensures unstored { IsUnstored live.old.plant.now live.new.plant.now }
    ensures still_stands { IsStanding live.new.plant.now }
    ensures same_reference { live.new.plant.ghost_name ≡ live.old.plant.ghost_name }
{
    copy_space(live, slot, child)?;
    live.commit(&patch.view())
}

// Stores the status word of a child for the process in the slot, and sets the records of a patch, which free the child's
// slot.
fn put_status(
    live: &mut Live<'_>,
    slot: u32,
    addr: u32,
    status: u32,
    patch: &Patch,
) -> Result<(), Panicked>
    requires able { live.old.plant.now.refusal ≡ None }
    requires stands { IsStanding live.old.plant.now }
    requires slot { slot < 16 }
    requires takes { takes_word (framed_pages (records_held live.old.plant.now) (words_of live.old.plant.now.memory) slot) addr ≡ true }
    requires patch { IsCommittable (records_held live.old.plant.now) patch.now.items.items }
    ensures ok { OnOk result (IsStatusPutBy live.old.plant.now slot addr status patch.now.items.items (held_of live.new.plant.now)) }
    ensures shut { OnOk result (gate_held live.new.plant.now ≡ Closed) }
    ensures err { OnErr result (MayBeLeftOfPut live.old.plant.now slot addr status patch.now.items.items (held_of live.new.plant.now)) }
    ensures stays { OnOk result (live.new.plant.now.refusal ≡ None) }
    ensures cause { OnErr result (live.new.plant.now.refusal ≡ Some refusal.Store) }
    ensures allowed { OnErr result (may_refuse live.old.plant.now ≡ true) }
    ensures unstored { IsUnstored live.old.plant.now live.new.plant.now }
    ensures still_stands { IsStanding live.new.plant.now }
    ensures same_reference { live.new.plant.ghost_name ≡ live.old.plant.ghost_name }
{
    put_word(live, slot, addr, status)?;
    live.commit(&patch.view())
}

/// Does what a call asks for: the bytes of the process go out, each counted first, pages are prepared for it or for its
/// child, or a word of it is stored, and the patch is committed last.
///
/// `Panicked` comes only where a store was refused. Then a front of the bytes is out, of the next one the terminal's
/// record may know, and the patch is set only where all of them are out. Where pages are prepared no record counts them
/// before the patch does. A word is stored whole or not at all.
pub(crate) fn carry_out(live: &mut Live<'_>, slot: u32, service: &Service) -> Result<(), Panicked>
    requires able { live.old.plant.now.refusal ≡ None }
    requires stands { IsStanding live.old.plant.now }
    requires can { CanBeServed (records_held live.old.plant.now) slot (plan_of service.now) }
    requires doable { IsDoable (records_held live.old.plant.now) (words_of live.old.plant.now.memory) slot service.now }
    requires patch { IsCommittable (records_held live.old.plant.now) (items_in (plan_of service.now)) }
    requires room { HasRoomFor live.old.plant.now (plan_of service.now) }
    ensures ok { OnOk result (IsCarriedOut live.old.plant.now slot (plan_of service.now) (held_of live.new.plant.now)) }
    ensures shut { OnOk result (gate_held live.new.plant.now ≡ Closed) }
    ensures err { OnErr result (MayBeLeft live.old.plant.now slot (plan_of service.now) (held_of live.new.plant.now)) }
    ensures stays { OnOk result (live.new.plant.now.refusal ≡ None) }
    ensures cause { OnErr result (live.new.plant.now.refusal ≡ Some refusal.Store) }
    ensures allowed { OnErr result (may_refuse live.old.plant.now ≡ true) }
    ensures unstored { IsUnstored live.old.plant.now live.new.plant.now }
    ensures still_stands { IsStanding live.new.plant.now }
    ensures same_reference { live.new.plant.ghost_name ≡ live.old.plant.ghost_name }
{
    match service {
        Service::Once { patch } => live.commit(&patch.view()),
        Service::TtyWrite {
            tty,
            from,
            len,
            patch,
        } => write_piece(live, slot, *tty, *from, *len, patch),
        Service::Grow { count, patch } => grow_heap(live, slot, *count, patch),
        Service::Fork { child, patch } => fork_space(live, slot, *child, patch),
        Service::PutStatus {
            addr,
            status,
            patch,
        } => put_status(live, slot, *addr, *status, patch),
    }
}
