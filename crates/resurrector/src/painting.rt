//! What is seen of the terminals of a kernel that takes over.
ghost use Rattle.std.specs.Prelude.{◌≡◌, ◌+◌, ◌<◌, ◌≤◌, length, None, Some, OnOk, OnErr, true};
ghost use Rattle.std.specs.List.{list_any};
ghost use Rattle.ow_plant.specs.Lent.{lent_tty};
ghost use Rattle.ow_plant.specs.Owning.{own_words};
ghost use Rattle.ow_plant.specs.Points.{is_in};
ghost use Rattle.ow_plant.specs.declared.refusal.Refusal.TheVariants.{Store};
ghost use Rattle.record_layouts.specs.Reading.{FitsMap, records_of};
ghost use Rattle.record_layouts.specs.Terminals.{ShowsScreen, TerminalDecodes};
ghost use Rattle.resurrector.specs.Counts.{display_stores, most_painted};
ghost use Rattle.resurrector.specs.Painting.{ChangesDisplay, ChangesDisplays, ShowsRows};

use ow_base::Panicked;
use ow_plant::Own;
use record_layouts::{AreaView, MemoryMap, ROWS, RecordView};
use tty_screen::screen_row;

// Paints one row of a terminal, 0 or 1, as the records of the own half have it.
fn paint_row(own: &mut Own<'_>, map: &MemoryMap, tty: u32, r: u32) -> Result<(), Panicked>
    requires tty { tty < 2 }
    requires row { r < 24 }
    requires fits { FitsMap map.now }
    requires decodes { TerminalDecodes (records_of map.now (own_words own.old)) tty }
    requires able { own.old.lent.now.refusal ≡ None }
    ensures shown { OnOk result (ShowsRows (records_of map.now (own_words own.old)) tty r (lent_tty own.old.lent.now tty).display.rows
        → ShowsRows (records_of map.now (own_words own.old)) tty (r + 1) (lent_tty own.new.lent.now tty).display.rows) }
    ensures only { ChangesDisplay tty own.old.lent.now own.new.lent.now }
    ensures stays { OnOk result (own.new.lent.now.refusal ≡ None) }
    ensures cause { OnErr result (own.new.lent.now.refusal ≡ Some Store) }
    ensures counted { own.new.lent.now.stores ≤ own.old.lent.now.stores + 1 }
    ensures allowed { OnErr result (list_any (is_in own.old.place.trap) own.old.place.points.now ≡ true) }
    ensures place { own.new.place ≡ own.old.place }
    ensures same_reference { own.new.lent.ghost_name ≡ own.old.lent.ghost_name }
{
    let text = screen_row(&AreaView::new(&*own, *map), tty, r).unwrap();
    own.paint(tty, r, &text)
}

// Sets the cursor of a terminal, 0 or 1, where the records of the own half have it.
fn set_cursor(own: &mut Own<'_>, map: &MemoryMap, tty: u32) -> Result<(), Panicked>
    requires tty { tty < 2 }
    requires fits { FitsMap map.now }
    requires decodes { TerminalDecodes (records_of map.now (own_words own.old)) tty }
    requires able { own.old.lent.now.refusal ≡ None }
    ensures shown { OnOk result (ShowsRows (records_of map.now (own_words own.old)) tty 24 (lent_tty own.old.lent.now tty).display.rows
        → ShowsScreen (records_of map.now (own_words own.old)) tty (lent_tty own.new.lent.now tty).display) }
    ensures only { ChangesDisplay tty own.old.lent.now own.new.lent.now }
    ensures stays { OnOk result (own.new.lent.now.refusal ≡ None) }
    ensures cause { OnErr result (own.new.lent.now.refusal ≡ Some Store) }
    ensures counted { own.new.lent.now.stores ≤ own.old.lent.now.stores + 1 }
    ensures allowed { OnErr result (list_any (is_in own.old.place.trap) own.old.place.points.now ≡ true) }
    ensures place { own.new.place ≡ own.old.place }
    ensures same_reference { own.new.lent.ghost_name ≡ own.old.lent.ghost_name }
{
    let terminal = AreaView::new(&*own, *map).term(tty).unwrap();
    own.cursor(tty, terminal.row, terminal.col)
}

// Paints the rows of a terminal, 0 or 1, as the records of the own half have them.
fn paint_rows(own: &mut Own<'_>, map: &MemoryMap, tty: u32) -> Result<(), Panicked>
    requires tty { tty < 2 }
    requires fits { FitsMap map.now }
    requires decodes { TerminalDecodes (records_of map.now (own_words own.old)) tty }
    requires able { own.old.lent.now.refusal ≡ None }
    requires long { length (lent_tty own.old.lent.now tty).display.rows ≡ 24 }
    ensures shown { OnOk result (ShowsRows (records_of map.now (own_words own.old)) tty 24 (lent_tty own.new.lent.now tty).display.rows) }
    ensures only { ChangesDisplay tty own.old.lent.now own.new.lent.now }
    ensures stays { OnOk result (own.new.lent.now.refusal ≡ None) }
    ensures cause { OnErr result (own.new.lent.now.refusal ≡ Some Store) }
    ensures counted { own.new.lent.now.stores ≤ own.old.lent.now.stores + 24 }
    ensures allowed { OnErr result (list_any (is_in own.old.place.trap) own.old.place.points.now ≡ true) }
    ensures place { own.new.place ≡ own.old.place }
    ensures same_reference { own.new.lent.ghost_name ≡ own.old.lent.ghost_name }
{
    for r in 0..ROWS {
        paint_row(own, map, tty, r)?;
    }
    Ok(())
}

// Paints the display of a terminal, 0 or 1, as the records of the own half have it: its rows and then its cursor.
fn paint_terminal(own: &mut Own<'_>, map: &MemoryMap, tty: u32) -> Result<(), Panicked>
    requires tty { tty < 2 }
    requires fits { FitsMap map.now }
    requires decodes { TerminalDecodes (records_of map.now (own_words own.old)) tty }
    requires able { own.old.lent.now.refusal ≡ None }
    requires long { length (lent_tty own.old.lent.now tty).display.rows ≡ 24 }
    ensures shown { OnOk result (ShowsScreen (records_of map.now (own_words own.old)) tty (lent_tty own.new.lent.now tty).display) }
    ensures only { ChangesDisplay tty own.old.lent.now own.new.lent.now }
    ensures stays { OnOk result (own.new.lent.now.refusal ≡ None) }
    ensures cause { OnErr result (own.new.lent.now.refusal ≡ Some Store) }
    ensures counted { own.new.lent.now.stores ≤ own.old.lent.now.stores + display_stores }
    ensures allowed { OnErr result (list_any (is_in own.old.place.trap) own.old.place.points.now ≡ true) }
    ensures place { own.new.place ≡ own.old.place }
    ensures same_reference { own.new.lent.ghost_name ≡ own.old.lent.ghost_name }
{
    paint_rows(own, map, tty)?;
    set_cursor(own, map, tty)
}

/// Paints the displays of both terminals as the records of the own half have them, which must decode. `Panicked` comes where
/// a store is refused.
#[tactic(auto, using(crate::proofs::Painted::both_displays))]
pub(crate) fn paint_terminals(own: &mut Own<'_>, map: &MemoryMap) -> Result<(), Panicked>
    requires fits { FitsMap map.now }
    requires decodes0 { TerminalDecodes (records_of map.now (own_words own.old)) 0 }
    requires decodes1 { TerminalDecodes (records_of map.now (own_words own.old)) 1 }
    requires able { own.old.lent.now.refusal ≡ None }
    requires long0 { length own.old.lent.now.tty0.display.rows ≡ 24 }
    requires long1 { length own.old.lent.now.tty1.display.rows ≡ 24 }
    ensures shown0 { OnOk result (ShowsScreen (records_of map.now (own_words own.old)) 0 own.new.lent.now.tty0.display) }
    ensures shown1 { OnOk result (ShowsScreen (records_of map.now (own_words own.old)) 1 own.new.lent.now.tty1.display) }
    ensures words { own_words own.new ≡ own_words own.old }
    ensures only { ChangesDisplays own.old.lent.now own.new.lent.now }
    ensures stays { OnOk result (own.new.lent.now.refusal ≡ None) }
    ensures cause { OnErr result (own.new.lent.now.refusal ≡ Some Store) }
    ensures counted { own.new.lent.now.stores ≤ own.old.lent.now.stores + most_painted }
    ensures allowed { OnErr result (list_any (is_in own.old.place.trap) own.old.place.points.now ≡ true) }
    ensures place { own.new.place ≡ own.old.place }
    ensures same_reference { own.new.lent.ghost_name ≡ own.old.lent.ghost_name }
{
    paint_terminal(own, map, 0)?;
    paint_terminal(own, map, 1)
}
