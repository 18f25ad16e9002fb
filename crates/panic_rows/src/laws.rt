//! What holds of broken traps and of runs with panics.

ghost use Rattle.std.specs.Prelude.{◌≡◌, ◌+◌, ◌≤◌, ℕ, List, ◌++◌, take, [], if◌then◌else◌, true, Some, is_some};
ghost use Rattle.ow_base.specs.declared.machine.Shape.{Shape};
ghost use Rattle.ow_base.specs.declared.worlds.World.{World};
ghost use Rattle.ow_base.specs.declared.worlds.Ending.{Ending};
ghost use Rattle.ow_base.specs.declared.worlds.PanicLine.{PanicLine};
ghost use Rattle.ow_base.specs.declared.worlds.PanicRecord.{PanicRecord};
ghost use Rattle.ow_base.specs.Pages.{bytes_at, is_readable};
ghost use Rattle.record_layouts.specs.Unix.State.{Unix, Process, Description, In, OnTty, AtPanic};
ghost use Rattle.record_layouts.specs.Unix.Choice.{no_keys, settled};
ghost use Rattle.record_layouts.specs.Unix.Calls.{argument, description_of, tty_piece};
ghost use Rattle.record_layouts.specs.Unix.Traps.{after_trap, came_of, caller_of, or_zero, pid_of, steps_in, trap_of_turn};
ghost use Rattle.record_layouts.specs.Unix.Broken.{IsBroken, done_of, partly_put};
ghost use Rattle.record_layouts.specs.Unix.Panics.{Images, IsAtPoint, RunWith, line_for};
ghost use Rattle.record_layouts.specs.Unix.Run.{Run};
ghost use Rattle.record_layouts.specs.Unix.Report.{report_of};
ghost use Rattle.record_layouts.specs.Unix.PanicReport.{entry_for, report_with};
ghost use Rattle.record_layouts.specs.Left.{is_by_call};
ghost use Rattle.record_layouts.specs.declared.fates.Fate.{Fate};
ghost use Rattle.record_layouts.specs.declared.traps.Trap.{Trap};
ghost use Rattle.record_layouts.specs.declared.traps.Trap.TheVariants as trap;

/// A world, a history and what its entries stand for have at most one run: one list of fates, one ending, and one state
/// that is left.
pub const fn one_run()
    ensures { (world : World) (images : Images) (history : List PanicRecord) (some other : List (List (ℕ × Fate)))
        (a b : Ending) (v w : Unix) → RunWith world images history some a v → RunWith world images history other b w →
        (some ≡ other) × (a ≡ b) × (v ≡ w) }
{}

/// Where a world lists no panic, its runs are those of a machine that never panics, no entry is in a history and no fate
/// is told, and the report is that of such a run.
pub const fn no_panics_change_nothing()
    ensures run { (world : World) (images : Images) (ending : Ending) (w : Unix) → world.panics ≡ [] →
        Run world [] ending w → RunWith world images [] [] ending w }
    ensures back { (world : World) (images : Images) (ending : Ending) (w : Unix) →
        RunWith world images [] [] ending w → Run world [] ending w }
    ensures history { (world : World) (images : Images) (history : List PanicRecord) (told : List (List (ℕ × Fate))) (ending : Ending) (w : Unix) →
        world.panics ≡ [] → RunWith world images history told ending w → (history ≡ []) × (told ≡ []) }
    ensures report { (ending : Ending) (w : Unix) → report_with [] [] [] ending w ≡ report_of ending w }
{}

/// Each panic that is listed for a trap which the run reaches comes: the history has an entry of it. No other one comes,
/// and each comes at its point.
pub const fn listed_panics_come()
    ensures come { (world : World) (images : Images) (history : List PanicRecord) (told : List (List (ℕ × Fate))) (ending : Ending) (w : Unix)
        (number : ℕ) (line : PanicLine) → RunWith world images history told ending w → line_for world.panics number ≡ Some line →
        1 ≤ number → number ≤ w.traps → is_some (entry_for history number) ≡ true }
    ensures others { (world : World) (images : Images) (history : List PanicRecord) (told : List (List (ℕ × Fate))) (ending : Ending) (w : Unix)
        (number : ℕ) (r : PanicRecord) → RunWith world images history told ending w → entry_for history number ≡ Some r →
        (line : PanicLine) × (line_for world.panics number ≡ Some line) × (r.listed ≡ line.store) × IsAtPoint line.store r }
{}

/// What a broken trap leaves counts it, and where the trap was done it is what the trap makes, but for the position.
pub const fn broken_traps_are_counted()
    ensures counts { (u v : Unix) (t : Trap) → IsBroken no_keys u t v → (v.steps ≡ u.steps + steps_in t) × (v.traps ≡ u.traps + 1) }
    ensures all { (shape : Shape) (u : Unix) (t : Trap) → trap_of_turn no_keys shape u ≡ Some t →
        done_of t (settled no_keys u) ≡ record (after_trap (settled no_keys u) t) { position = AtPanic 0 } }
{}

/// What a panic hands over of a trap, its pid and from where the processor came, tells whether a call of that process was
/// entered.
pub const fn hand_overs_name_callers()
    ensures { (t : Trap) → (if is_by_call (came_of t) then or_zero (pid_of t) else 0) ≡ caller_of t }
{}

/// A piece of a write on a terminal that is broken leaves the first of its bytes behind what was written.
pub const fn pieces_are_put_in_order()
    ensures { (u : Unix) (pid : ℕ) (p : Process) (done tty : ℕ) (d : Description) (count : ℕ) → u.processes pid ≡ Some p → p.call ≡ In 2 done →
        description_of u p (argument p 0) ≡ Some d → d.object ≡ OnTty tty →
        is_readable p.pages (argument p 1 + done) (tty_piece (argument p 2) done) ≡ true →
        ((partly_put (trap.Piece pid) u tty count).terminals tty).tape
        ≡ (u.terminals tty).tape ++ take count (bytes_at p.pages (argument p 1 + done) (tty_piece (argument p 2) done)) }
{}
