//! What holds of panics and of what is made of them. The functions do nothing: their contracts are the laws, and some
//! lines of reports that the check computes.

ghost use Rattle.std.specs.Prelude.{◌≡◌, ◌+◌, ◌≤◌, ◌<◌, ℕ, true, false, List, ◌∷◌, Some, codes, option_map};
ghost use Rattle.std.specs.List.{AllPairs};
ghost use Rattle.ow_base.specs.Words.{minus, wrapped};
ghost use Rattle.ow_base.specs.UserStep.{with_register};
ghost use Rattle.ow_base.specs.declared.machine.Shape.{Shape};
ghost use Rattle.ow_base.specs.declared.worlds.Ending.{Ending};
ghost use Rattle.ow_base.specs.declared.worlds.PanicRecord.{PanicRecord};
ghost use Rattle.ow_base.specs.declared.worlds.World.{World};
ghost use Rattle.record_layouts.specs.Unix.State.{most_pids, Unix, Process, Out};
ghost use Rattle.record_layouts.specs.Unix.Choice.{no_keys};
ghost use Rattle.record_layouts.specs.Unix.Turn.{ending_of};
ghost use Rattle.record_layouts.specs.Unix.Traps.{after_trap, closing_of, next_trap};
ghost use Rattle.record_layouts.specs.Unix.Broken.{done_of, undone_of};
ghost use Rattle.record_layouts.specs.Unix.Wounds.{Wounds, no_wounds};
ghost use Rattle.record_layouts.specs.Unix.Abort.{abort, bits_lost, call_at, fate_in, fate_of, fates, is_made_again, is_undone_caller};
ghost use Rattle.record_layouts.specs.Unix.Panics.{Due, Images, IsPanicEntry, RunsWith, due_at, state_left};
ghost use Rattle.record_layouts.specs.Unix.PanicReport.{panic_line};
ghost use Rattle.record_layouts.specs.declared.fates.Fate.{Fate};
ghost use Rattle.record_layouts.specs.declared.fates.Fate.TheVariants as fate;
ghost use Rattle.record_layouts.specs.declared.traps.Trap.{Trap};
ghost use Rattle.record_layouts.specs.declared.traps.Trap.TheVariants as trap;

/// Where nothing is wounded, a process outside a call and without a crash procedure goes on as it was. So does one that
/// the trap has left outside a call, where the panic came when the trap was done.
pub const fn outside_goes_on()
    ensures fate { (v : Unix) (pid : ℕ) (p : Process) → v.processes pid ≡ Some p → p.call ≡ Out → p.procedure ≡ 0 →
        is_undone_caller v.position pid ≡ false → fate_of v (no_wounds v) pid p ≡ fate.Goes }
    ensures same { (v : Unix) (pid : ℕ) (p : Process) → v.processes pid ≡ Some p → p.call ≡ Out → p.procedure ≡ 0 →
        is_undone_caller v.position pid ≡ false → (abort v (no_wounds v)).processes pid ≡ Some p }
    ensures done { (u : Unix) (t : Trap) (pid : ℕ) (p : Process) → (after_trap u t).processes pid ≡ Some p → p.call ≡ Out → p.procedure ≡ 0 →
        1 ≤ pid → (abort (done_of t u) (no_wounds (done_of t u))).processes pid ≡ Some p }
{}

/// Where nothing is wounded, a process that the panic found in a call, and that has no crash procedure, is outside of it
/// afterwards: it stands at a call that is made again, and each other call is answered ECRASH, which is 200.
pub const fn calls_are_undone()
    ensures stands { (v : Unix) (pid number : ℕ) (p : Process) → v.processes pid ≡ Some p → call_at v pid p ≡ Some number → p.procedure ≡ 0 →
        is_made_again number ≡ true → (fate_of v (no_wounds v) pid p ≡ fate.Stands)
        × ((abort v (no_wounds v)).processes pid ≡ Some (record p { call = Out })) }
    ensures aborted { (v : Unix) (pid number : ℕ) (p : Process) → v.processes pid ≡ Some p → call_at v pid p ≡ Some number → p.procedure ≡ 0 →
        is_made_again number ≡ false → (fate_of v (no_wounds v) pid p ≡ fate.Aborted)
        × ((abort v (no_wounds v)).processes pid
        ≡ Some (record p { call = Out; bank = record { pc = wrapped (p.bank.pc + 4); regs = with_register p.bank.regs 10 (minus 200) } })) }
{}

/// A process of which nothing is wounded fares as if nothing were.
pub const fn untouched_processes_survive()
    ensures { (v : Unix) (x : Wounds) (pid : ℕ) (p : Process) → v.processes pid ≡ Some p → x.core pid ≡ false → bits_lost v x pid p ≡ 0 →
        x.pages pid ≡ p.pages.bytes → (fate_of v x pid p ≡ fate_of v (no_wounds v) pid p)
        × ((abort v x).processes pid ≡ (abort v (no_wounds v)).processes pid) }
{}

/// Where nothing is wounded, a panic changes processes alone: files, terminals, exits, pids and counts stay.
pub const fn only_processes_change()
    ensures files { (v : Unix) (file : ℕ) → (abort v (no_wounds v)).files file ≡ v.files file }
    ensures terminals { (v : Unix) (tty : ℕ) → (abort v (no_wounds v)).terminals tty ≡ v.terminals tty }
    ensures exits { (v : Unix) (pid : ℕ) → (abort v (no_wounds v)).exits pid ≡ v.exits pid }
    ensures pids { (v : Unix) → ((abort v (no_wounds v)).next_pid ≡ v.next_pid) × ((abort v (no_wounds v)).last_pid ≡ v.last_pid) }
    ensures counts { (v : Unix) → ((abort v (no_wounds v)).steps ≡ v.steps) × ((abort v (no_wounds v)).traps ≡ v.traps) }
{}

/// A closing trap that a panic has broken, by which nothing is wounded, is followed by another one, of no process.
pub const fn closing_traps_are_repeated()
    ensures { (shape : Shape) (u v : Unix) (ending : Ending) → ending_of shape u ≡ Some ending → v ≡ undone_of (closing_of u) u →
        (ending_of shape (abort v (no_wounds v)) ≡ Some ending) × (next_trap no_keys shape (abort v (no_wounds v)) ≡ Some (trap.Closing None))
        × ((abort v (no_wounds v)).traps ≡ u.traps + 1) × ((abort v (no_wounds v)).steps ≡ u.steps) }
{}

/// Each process that was live has one fate, and no other has one. The fates are in the order of the pids.
pub const fn live_processes_have_fates()
    ensures order { (v : Unix) (x : Wounds) → AllPairs (λ (some later : ℕ × Fate). some.0 < later.0) (fates v x) }
    ensures one { (v : Unix) (x : Wounds) (pid : ℕ) → 1 ≤ pid → pid ≤ most_pids →
        fate_in (fates v x) pid ≡ option_map (λ p. fate_of v x pid p) (v.processes pid) }
{}

/// Where a panic is listed for the next trap, the closing one included, it comes: the next entry of the history is of it.
pub const fn due_panics_come()
    ensures { (world : World) (images : Images) (u : Unix) (due : Due) (history : List PanicRecord) (told : List (List (ℕ × Fate))) (ending : Ending) (w : Unix) →
        due_at world u ≡ Some due → RunsWith world images u history told ending w →
        (r : PanicRecord) × (rest : List PanicRecord) × (history ≡ r ∷ rest) × IsPanicEntry u due r (state_left images u due r) }
{}

/// The line of a panic has the store that the world lists, and not the number of stores that were made.
pub const fn panics_are_told_as_listed()
    ensures store { (r : PanicRecord) → r.trap ≡ 6 → r.listed ≡ 0 → r.at_leave ≡ false → r.pid ≡ 3 → panic_line r ≡ codes "panic 6 0 store pid 3\n" }
    ensures leave { (r : PanicRecord) → r.trap ≡ 1 → r.listed ≡ 999999 → r.at_leave ≡ true → r.pid ≡ 1 →
        panic_line r ≡ codes "panic 1 999999 leave pid 1\n" }
{}
