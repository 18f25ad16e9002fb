//! Which terminals can be read, and the byte that the panic kept from one.
ghost use Rattle.std.specs.Prelude.{◌≡◌, ◌↔◌, ℕ, ◌+◌, ◌*◌, ◌<◌, ◌≤◌, not, is_some, IsTrue, IfSome, IfNone};
ghost use Rattle.record_layouts.specs.Terminals.{TerminalDecodes};
ghost use Rattle.dead_reader.specs.Terminals.{IsInFlight, lacks_row, terminal_decodes};

use record_layouts::{ROWS, RecordView};

// One of a terminal's rows does not decode.
#[tactic(auto, unfolding(record_layouts::specs::Terminals::lacks_row))]
fn lacks_row<V: RecordView>(view: &V, tty: u32) -> bool
    requires { tty < 2 }
    ensures { result ≡ lacks_row (V.records view.now) tty }
{
    for place in 0..ROWS {
        if view.row(ROWS * tty + place).is_none() {
            return true;
        }
    }
    false
}

/// A terminal's record and its rows decode.
#[tactic(auto, unfolding(record_layouts::specs::Terminals::terminal_decodes))]
pub(crate) fn terminal_decodes<V: RecordView>(view: &V, tty: u32) -> bool
    requires { tty < 2 }
    ensures same { result ≡ terminal_decodes (V.records view.now) tty }
    ensures decodes { IsTrue result ↔ TerminalDecodes (V.records view.now) tty }
{
    view.term(tty).is_some() && !lacks_row(view, tty)
}

/// The byte that the record of a terminal counts last and that its device, with `count` bytes, has not written.
pub(crate) fn in_flight<V: RecordView>(view: &V, tty: u32, count: u32) -> Option<u8>
    requires { tty < 2 }
    ensures found { IfSome result (λ byte. IsInFlight (V.records view.now) tty count byte) }
    ensures none { IfNone result ((byte : ℕ) → IsInFlight (V.records view.now) tty count byte → ⊥) }
{
    if !terminal_decodes(view, tty) {
        return None;
    }
    let terminal = view.term(tty)?;
    if terminal.written.checked_sub(count) == Some(1) {
        Some(terminal.last as u8)
    } else {
        None
    }
}
