//! Laws on screens and the records that show them. The functions do nothing.
ghost use Rattle.std.specs.Prelude.{◌≡◌, ◌≢◌, ℕ, ◌<◌, List, [], ◌∷◌, ◌++◌, All};
ghost use Rattle.ow_base.specs.Screen.{Screen, blank_screen, drawn_all, screen_of};
ghost use Rattle.record_layouts.specs.Held.{AreComplete, Records, with_items};
ghost use Rattle.record_layouts.specs.declared.patch.PatchItem.{PatchItem};
ghost use Rattle.tty_screen.specs.Drawing.{DrawsAll, DrawsByte, IsOfTerminal, StaysBeside, with_patches};
ghost use Rattle.tty_screen.specs.Shown.{IsBlank, ShowsScreen, TerminalDecodes};

/// A law; the function does nothing. The records of a terminal show one screen at most.
pub const fn one_screen_is_shown()
    ensures { (records : Records) (tty : ℕ) (a b : Screen)
        → ShowsScreen records tty a → ShowsScreen records tty b → a ≡ b }
{}

/// A law; the function does nothing. A blank terminal shows the blank screen.
pub const fn blank_terminals_show_blank_screens()
    ensures { (records : Records) (tty : ℕ) → IsBlank records tty → ShowsScreen records tty blank_screen }
{}

/// A law; the function does nothing. Where records show a screen the terminal's record and its rows decode, and where
/// all records decode those of both terminals do.
pub const fn shown_terminals_decode()
    ensures shown { (records : Records) (tty : ℕ) (screen : Screen)
        → ShowsScreen records tty screen → TerminalDecodes records tty }
    ensures complete { (records : Records) (tty : ℕ) → tty < 2 → AreComplete records → TerminalDecodes records tty }
{}

/// A law; the function does nothing. After patches that draw bytes one after the other the records show the screen with
/// all these bytes drawn, and where they showed the screen of a tape that of the tape with the byte behind it.
pub const fn bytes_are_drawn_in_turn()
    ensures all { (records : Records) (tty : ℕ) (screen : Screen) (bytes : List ℕ) (patches : List (List PatchItem))
        → ShowsScreen records tty screen → DrawsAll records tty bytes patches
        → ShowsScreen (with_patches records patches) tty (drawn_all screen bytes) }
    ensures one { (records : Records) (tty byte : ℕ) (bytes : List ℕ) (items : List PatchItem)
        → ShowsScreen records tty (screen_of bytes) → DrawsByte records tty byte items
        → ShowsScreen (with_items records items) tty (screen_of (bytes ++ byte ∷ [])) }
{}

/// A law; the function does nothing. A terminal shows what it did where only the other terminal's records change, and
/// where a patch has none of its own.
pub const fn other_screens_stay()
    ensures beside { (old new : Records) (tty other : ℕ) (screen : Screen)
        → StaysBeside tty old new → other ≢ tty → ShowsScreen old other screen → ShowsScreen new other screen }
    ensures patch { (records : Records) (tty : ℕ) (screen : Screen) (items : List PatchItem)
        → All (λ item. IsOfTerminal tty item.id → ⊥) items
        → ShowsScreen records tty screen → ShowsScreen (with_items records items) tty screen }
{}
