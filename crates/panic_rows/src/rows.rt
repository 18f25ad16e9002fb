//! The worked examples.

ghost use Rattle.std.specs.Prelude.{◌≡◌, ℕ, [], ◌∷◌, ◌++◌, length, map, replicate, All, Some, None};
ghost use Rattle.ow_base.specs.declared.worlds.World.{World};
ghost use Rattle.ow_base.specs.declared.worlds.Ending.TheVariants as ending;
ghost use Rattle.record_layouts.specs.Unix.State.{start_of};
ghost use Rattle.record_layouts.specs.Unix.Choice.{chosen, no_keys};
ghost use Rattle.record_layouts.specs.Unix.Turn.{closed};
ghost use Rattle.record_layouts.specs.Unix.Wounds.{no_wounds};
ghost use Rattle.record_layouts.specs.Unix.Abort.{fates};
ghost use Rattle.record_layouts.specs.Unix.Panics.{Images, RunWith};
ghost use Rattle.record_layouts.specs.Unix.PanicReport.{panic_lines, report_with, unused_lines};
ghost use Rattle.record_layouts.specs.declared.fates.Fate.TheVariants as fate;
ghost use Rattle.panic_rows.specs.Rows.{after, at_leave, at_store, byte_damage, byte_hurt, damaged_at, exit_closing, exit_closing_end, exit_closing_left, exit_closing_report, exit_first, exit_first_end, exit_first_left, exit_first_report, exit_leave, exit_leave_end, exit_leave_left, exit_leave_report, exit_unused, exit_unused_report, head_damage, head_lost, hi_first, hi_first_end, hi_first_left, hi_first_report, hi_hurt, hi_hurt_end, hi_hurt_left, hi_hurt_report, hi_leave, hi_leave_end, hi_leave_left, hi_leave_report, hi_lost, hi_lost_end, hi_lost_left, hi_lost_report, hi_mid, hi_mid_end, hi_mid_left, hi_mid_report, loop_at_once, loop_at_once_end, loop_at_once_left, loop_at_once_report, loop_closing, loop_closing_end, loop_closing_left, loop_closing_report, loop_twice, loop_twice_end, loop_twice_left, loop_twice_left_again, loop_twice_report, retried, retried_history, retried_panics, retried_unused, revived, scroll_end, scroll_leave, scroll_leave_end, scroll_leave_left, scroll_leave_report, second_damage, second_lost, three_hi, three_hi_end, three_hi_left, three_hi_report, writers, writers_end, writers_left, writers_report};
ghost use Rattle.panic_rows.specs.Mixed.{bank_at, bank_with, calling, descriptors_at, fates_of_call, handlers_at, mixed, mixed_revived, mixed_wounds, save_at};
ghost use Rattle.panic_rows.specs.Pairs.{IsImaged, WorkedRun, history_of, one_trap, report_at, reports_of_one, reports_with_fifth, reports_with_first, reports_with_fourth, reports_with_second, reports_with_seventh, reports_with_sixth, reports_with_third, told_of, with_fifth, with_first, with_fourth, with_second, with_seventh, with_sixth, with_third, worked_run};

/// A panic at the first store of the write of hi: the call is aborted, and the program goes on to its exit.
pub const fn hi_first_store_runs()
    ensures run { (images : Images) → images.state (at_store 1 0 1) 5 1 ≡ hi_first_left → images.wounds (at_store 1 0 1) ≡ no_wounds hi_first_left
        → RunWith hi_first images (at_store 1 0 1 ∷ []) (((1, fate.Aborted) ∷ []) ∷ []) ending.Done hi_first_end }
    ensures counts { (hi_first_end.steps ≡ 8) × (hi_first_end.traps ≡ 3) × (hi_first_end.exits 1 ≡ Some 0) × ((hi_first_end.terminals 0).tape ≡ []) }
    ensures report { report_with hi_first.panics (at_store 1 0 1 ∷ []) (((1, fate.Aborted) ∷ []) ∷ []) ending.Done hi_first_end ≡ hi_first_report }
{}

/// A panic at the end of the trap of that write, after any number of stores up to the listed one: the call is done.
pub const fn hi_leave_runs()
    ensures run { (images : Images) → images.state (at_leave 1 117 999999 1) 5 1 ≡ hi_leave_left → images.wounds (at_leave 1 117 999999 1) ≡ no_wounds hi_leave_left
        → RunWith hi_leave images (at_leave 1 117 999999 1 ∷ []) (((1, fate.Goes) ∷ []) ∷ []) ending.Done hi_leave_end }
    ensures counts { (hi_leave_end.steps ≡ 8) × (hi_leave_end.traps ≡ 3) × (hi_leave_end.exits 1 ≡ Some 0)
        × ((hi_leave_end.terminals 0).tape ≡ 72 ∷ 105 ∷ 10 ∷ []) }
    ensures report { report_with hi_leave.panics (at_leave 1 117 999999 1 ∷ []) (((1, fate.Goes) ∷ []) ∷ []) ending.Done hi_leave_end ≡ hi_leave_report }
{}

/// A panic in the middle of that write: the bytes that are out stay, and the call is aborted. So it is of a later piece,
/// here of one that scrolls.
pub const fn partial_writes_run()
    ensures run { (images : Images) → images.state (at_store 1 200 1) 5 1 ≡ hi_mid_left 2 → images.wounds (at_store 1 200 1) ≡ no_wounds (hi_mid_left 2)
        → RunWith hi_mid images (at_store 1 200 1 ∷ []) (((1, fate.Aborted) ∷ []) ∷ []) ending.Done (hi_mid_end 2) }
    ensures report { report_with hi_mid.panics (at_store 1 200 1 ∷ []) (((1, fate.Aborted) ∷ []) ∷ []) ending.Done (hi_mid_end 2) ≡ hi_mid_report }
    ensures tapes { (((hi_mid_end 0).terminals 0).tape ≡ []) × (((hi_mid_end 1).terminals 0).tape ≡ 72 ∷ [])
        × (((hi_mid_end 2).terminals 0).tape ≡ 72 ∷ 105 ∷ []) × (((hi_mid_end 3).terminals 0).tape ≡ 72 ∷ 105 ∷ 10 ∷ []) }
    // All bytes are out and the trap is not done: the call is aborted all the same.
    ensures told { fates (hi_mid_left 3) (no_wounds (hi_mid_left 3)) ≡ (1, fate.Aborted) ∷ [] }
    ensures scrolled { (length ((scroll_end 0).terminals 0).tape ≡ 16) × (length ((scroll_end 4).terminals 0).tape ≡ 20)
        × (length ((scroll_end 9).terminals 0).tape ≡ 25) × ((scroll_end 9).steps ≡ 9) × ((scroll_end 9).traps ≡ 4) }
{}

/// A panic at the end of the trap of the first piece of a longer write: the piece is done, and the process is in its
/// call, which is aborted.
pub const fn first_piece_runs()
    ensures run { (images : Images) → images.state (at_leave 1 300 999999 1) 5 1 ≡ scroll_leave_left
        → images.wounds (at_leave 1 300 999999 1) ≡ no_wounds scroll_leave_left
        → RunWith scroll_leave images (at_leave 1 300 999999 1 ∷ []) (((1, fate.Aborted) ∷ []) ∷ []) ending.Done scroll_leave_end }
    ensures report { report_with scroll_leave.panics (at_leave 1 300 999999 1 ∷ []) (((1, fate.Aborted) ∷ []) ∷ []) ending.Done scroll_leave_end
        ≡ scroll_leave_report }
{}

/// A panic at the first store of an exit, which is made again, and one at the end of its trap, at which no process is live.
pub const fn exit_panic_runs()
    ensures first_run { (images : Images) → images.state (at_store 1 0 1) 3 1 ≡ exit_first_left → images.wounds (at_store 1 0 1) ≡ no_wounds exit_first_left
        → RunWith exit_first images (at_store 1 0 1 ∷ []) (((1, fate.Stands) ∷ []) ∷ []) ending.Done exit_first_end }
    ensures last_run { (images : Images) → images.state (at_leave 1 311 999999 1) 3 1 ≡ exit_leave_left → images.wounds (at_leave 1 311 999999 1) ≡ no_wounds exit_leave_left
        → RunWith exit_leave images (at_leave 1 311 999999 1 ∷ []) ([] ∷ []) ending.Done exit_leave_end }
    ensures first { (exit_first_end.steps ≡ 4) × (exit_first_end.traps ≡ 3) × (exit_first_end.exits 1 ≡ Some 7) }
    ensures first_report { report_with exit_first.panics (at_store 1 0 1 ∷ []) (((1, fate.Stands) ∷ []) ∷ []) ending.Done exit_first_end ≡ exit_first_report }
    ensures last { (exit_leave_end.steps ≡ 3) × (exit_leave_end.traps ≡ 2) × (exit_leave_end.exits 1 ≡ Some 7) }
    ensures last_report { report_with exit_leave.panics (at_leave 1 311 999999 1 ∷ []) ([] ∷ []) ending.Done exit_leave_end ≡ exit_leave_report }
{}

/// A panic at the closing trap: of no process, of one in user mode, and of none where the run ends before one is chosen;
/// one that does not come; and one at each of two closing traps, of which the second is of no process.
pub const fn closing_panic_runs()
    ensures none_run { (images : Images) → images.state (at_store 2 0 0) 3 2 ≡ exit_closing_left → images.wounds (at_store 2 0 0) ≡ no_wounds exit_closing_left
        → RunWith exit_closing images (at_store 2 0 0 ∷ []) ([] ∷ []) ending.Done exit_closing_end }
    ensures none { (exit_closing_end.steps ≡ 3) × (exit_closing_end.traps ≡ 3) }
    ensures none_report { report_with exit_closing.panics (at_store 2 0 0 ∷ []) ([] ∷ []) ending.Done exit_closing_end ≡ exit_closing_report }
    ensures unused_run { (images : Images) → RunWith exit_unused images [] [] ending.Done (closed (after exit_unused 3)) }
    ensures unused_report { report_with exit_unused.panics [] [] ending.Done (closed (after exit_unused 3)) ≡ exit_unused_report }
    ensures user_run { (images : Images) → images.state (at_store 1 0 1) 10 1 ≡ loop_closing_left → images.wounds (at_store 1 0 1) ≡ no_wounds loop_closing_left
        → RunWith loop_closing images (at_store 1 0 1 ∷ []) (((1, fate.Goes) ∷ []) ∷ []) ending.Budget loop_closing_end }
    ensures user { (loop_closing_end.steps ≡ 10) × (loop_closing_end.traps ≡ 2) }
    ensures user_report { report_with loop_closing.panics (at_store 1 0 1 ∷ []) (((1, fate.Goes) ∷ []) ∷ []) ending.Budget loop_closing_end ≡ loop_closing_report }
    ensures at_once_run { (images : Images) → images.state (at_store 1 0 0) 0 1 ≡ loop_at_once_left → images.wounds (at_store 1 0 0) ≡ no_wounds loop_at_once_left
        → RunWith loop_at_once images (at_store 1 0 0 ∷ []) (((1, fate.Goes) ∷ []) ∷ []) ending.Budget loop_at_once_end }
    ensures at_once { (loop_at_once_left.last_pid ≡ 0) × (loop_at_once_end.last_pid ≡ 0) }
    ensures at_once_report { report_with loop_at_once.panics (at_store 1 0 0 ∷ []) (((1, fate.Goes) ∷ []) ∷ []) ending.Budget loop_at_once_end ≡ loop_at_once_report }
    ensures twice_run { (images : Images) → images.state (at_store 1 0 1) 10 1 ≡ loop_twice_left → images.wounds (at_store 1 0 1) ≡ no_wounds loop_twice_left
        → images.state (at_store 2 0 0) 10 2 ≡ loop_twice_left_again → images.wounds (at_store 2 0 0) ≡ no_wounds loop_twice_left_again
        → RunWith loop_twice images (at_store 1 0 1 ∷ at_store 2 0 0 ∷ []) (((1, fate.Goes) ∷ []) ∷ ((1, fate.Goes) ∷ []) ∷ []) ending.Budget loop_twice_end }
    ensures twice_report { report_with loop_twice.panics (at_store 1 0 1 ∷ at_store 2 0 0 ∷ []) (((1, fate.Goes) ∷ []) ∷ ((1, fate.Goes) ∷ []) ∷ []) ending.Budget loop_twice_end
        ≡ loop_twice_report }
{}

/// Two writers and a loop: a panic at the end of the second slice of the loop aborts both writes, of which 32 bytes
/// each are out, and the loop goes on until the budget.
pub const fn writers_and_loop_runs()
    ensures run { (images : Images) → images.state (at_store 6 0 3) 214 6 ≡ writers_left → images.wounds (at_store 6 0 3) ≡ no_wounds writers_left
        → RunWith writers images (at_store 6 0 3 ∷ []) (((1, fate.Aborted) ∷ (2, fate.Aborted) ∷ (3, fate.Goes) ∷ []) ∷ []) ending.Budget writers_end }
    ensures last { (writers_left.last_pid ≡ 3) × ((revived writers_left).last_pid ≡ 3) × (chosen no_keys (revived writers_left) ≡ Some 1) }
    ensures counts { (writers_end.steps ≡ 321) × (writers_end.traps ≡ 10) }
    ensures report { report_with writers.panics (at_store 6 0 3 ∷ []) (((1, fate.Aborted) ∷ (2, fate.Aborted) ∷ (3, fate.Goes) ∷ []) ∷ []) ending.Budget writers_end ≡ writers_report }
{}

/// A process of which a core record is lost ends so, and the others go on; where the head is lost, all are.
pub const fn losses_run()
    ensures second_run { (images : Images) → images.state (damaged_at 1 0 1 second_damage) 5 1 ≡ three_hi_left → images.wounds (damaged_at 1 0 1 second_damage) ≡ second_lost
        → RunWith three_hi images (damaged_at 1 0 1 second_damage ∷ []) (((1, fate.Aborted) ∷ (2, fate.Lost 0) ∷ (3, fate.Goes) ∷ []) ∷ []) ending.Done three_hi_end }
    ensures second_report { report_with three_hi.panics (damaged_at 1 0 1 second_damage ∷ []) (((1, fate.Aborted) ∷ (2, fate.Lost 0) ∷ (3, fate.Goes) ∷ []) ∷ []) ending.Done three_hi_end
        ≡ three_hi_report }
    ensures head_run { (images : Images) → images.state (damaged_at 1 0 1 head_damage) 5 1 ≡ hi_lost_left → images.wounds (damaged_at 1 0 1 head_damage) ≡ head_lost
        → RunWith hi_lost images (damaged_at 1 0 1 head_damage ∷ []) (((1, fate.Lost 0) ∷ []) ∷ []) ending.Done hi_lost_end }
    ensures head { (hi_lost_end.last_pid ≡ 0) × (hi_lost_end.next_pid ≡ 2) }
    ensures head_report { report_with hi_lost.panics (damaged_at 1 0 1 head_damage ∷ []) (((1, fate.Lost 0) ∷ []) ∷ []) ending.Done hi_lost_end ≡ hi_lost_report }
{}

/// A byte of a process that is damaged is so afterwards: the process goes on, and writes it.
pub const fn damaged_byte_runs()
    ensures run { (images : Images) → images.state (damaged_at 1 0 1 byte_damage) 3 1 ≡ hi_hurt_left → images.wounds (damaged_at 1 0 1 byte_damage) ≡ byte_hurt
        → RunWith hi_hurt images (damaged_at 1 0 1 byte_damage ∷ []) (((1, fate.Goes) ∷ []) ∷ []) ending.Done hi_hurt_end }
    ensures report { report_with hi_hurt.panics (damaged_at 1 0 1 byte_damage ∷ []) (((1, fate.Goes) ∷ []) ∷ []) ending.Done hi_hurt_end ≡ hi_hurt_report }
{}

/// Calls and losses of all kinds at one panic.
pub const fn fates_are_told()
    ensures told { fates mixed mixed_wounds ≡ (1, fate.Aborted) ∷ (2, fate.Procedure 18) ∷ (3, fate.Lost 3) ∷ (4, fate.Lost 1)
        ∷ (5, fate.Lost 2) ∷ (6, fate.Lost 8) ∷ (7, fate.Lost 0) ∷ (8, fate.Procedure 4) ∷ (9, fate.Aborted) ∷ (10, fate.Goes) ∷ [] }
    ensures exits { (mixed_revived.exits 1 ≡ None) × (mixed_revived.exits 3 ≡ Some 0x303) × (mixed_revived.exits 7 ≡ Some 0x300) × (mixed_revived.exits 11 ≡ Some 0) }
    ensures ended { (mixed_revived.ended 11 ≡ None) × (mixed_revived.ended 12 ≡ Some (record { parent = 1; status = 1 })) × (mixed_revived.ended 13 ≡ None) }
    ensures terminals { (mixed_revived.terminals 1 ≡ record { tape = 65 ∷ []; base = 1; consumed = 2 })
        × (mixed_revived.terminals 0 ≡ record { tape = 65 ∷ 66 ∷ []; base = 0; consumed = 0 }) }
    ensures closed { (mixed_revived.descriptions 2 ≡ None) × (mixed_revived.descriptions 3 ≡ None) × (mixed_revived.descriptions 1 ≡ mixed.descriptions 1) }
    ensures lost { (mixed_revived.processes 3 ≡ None) × (mixed_revived.processes 7 ≡ None) }
    // An aborted call is answered, of one that was entered as of one in progress; who was outside goes on as it was.
    ensures banks { (bank_at mixed_revived 1 ≡ Some (bank_with 0x10004 0xffffff38 4)) × (bank_at mixed_revived 9 ≡ Some (bank_with 0x10004 0xffffff38 10))
        × (bank_at mixed_revived 10 ≡ Some (bank_with 0x10000 5 1)) }
    ensures kept { (handlers_at mixed_revived 10 ≡ Some (0x10010 ∷ replicate 14 0)) × (descriptors_at mixed_revived 10 ≡ Some (Some 0 ∷ replicate 7 None)) }
    // A procedure that runs keeps its context and has its mask joined, and one that does not gets the context of the panic.
    ensures running { (bank_at mixed_revived 2 ≡ Some (bank_with 0x10020 18 3)) × (save_at mixed_revived 2 ≡ Some (bank_with 0x10030 6 7, 18)) }
    ensures entered { (bank_at mixed_revived 8 ≡ Some (bank_with 0x10020 4 0)) × (save_at mixed_revived 8 ≡ Some (bank_with 0x10000 5 0, 4)) }
{}

/// What becomes of the caller of each kind of call when its entry is broken: exit, sigreturn, crashreturn and yield are
/// made again, each other one is aborted, also where there is none of its number. A crash procedure is told so.
pub const fn calls_are_told()
    ensures again { (fates_of_call 1 0 ≡ (1, fate.Stands) ∷ []) × (fates_of_call 14 0 ≡ (1, fate.Stands) ∷ [])
        × (fates_of_call 16 0 ≡ (1, fate.Stands) ∷ []) × (fates_of_call 18 0 ≡ (1, fate.Stands) ∷ []) }
    ensures aborted { (fates_of_call 2 0 ≡ (1, fate.Aborted) ∷ []) × (fates_of_call 10 0 ≡ (1, fate.Aborted) ∷ []) × (fates_of_call 99 0 ≡ (1, fate.Aborted) ∷ []) }
    ensures procedures { (fates_of_call 1 0x10020 ≡ (1, fate.Procedure 0) ∷ []) × (fates_of_call 2 0x10020 ≡ (1, fate.Procedure 16) ∷ []) }
    // It returns to the call where that is made again, and behind it where it is aborted.
    ensures saves { (save_at (revived (calling 1 0x10020)) 1 ≡ Some (bank_with 0x10000 5 1, 0))
        × (save_at (revived (calling 2 0x10020)) 1 ≡ Some (bank_with 0x10004 0xffffff38 2, 16)) }
    ensures banks { (bank_at (revived (calling 1 0)) 1 ≡ Some (bank_with 0x10000 5 1)) × (bank_at (revived (calling 2 0)) 1 ≡ Some (bank_with 0x10004 0xffffff38 2))
        × (bank_at (revived (calling 2 0x10020)) 1 ≡ Some (bank_with 0x10020 16 2)) }
{}

/// The lines of panics with broken resurrections, and of what is listed and did not come.
pub const fn retries_are_told()
    ensures panics { panic_lines retried_history (((1, fate.Aborted) ∷ (2, fate.Procedure 18) ∷ (3, fate.Lost 5) ∷ []) ∷ []) ≡ retried_panics }
    ensures unused { unused_lines retried retried_history ≡ retried_unused }
{}

/// Three processes that each write Hi and end, with a panic at the first store of one of traps 1 to 8, and of each two
/// of them. Without a panic there are seven traps, the last of them the closing one. A write is aborted, an exit is made
/// again and so is the closing trap, and where trap 8 does not come its panic is unused.
pub const fn three_hi_with_panics()
    // Each run that is worked out is one of its world, whatever is listed.
    ensures run { (world : World) (images : Images) (fuel : ℕ) (worked : WorkedRun) → worked_run world fuel (start_of world.load) ≡ Some worked
        → All (IsImaged images) worked.panics → RunWith world images (history_of worked) (told_of worked) worked.ending worked.last }
    ensures one { map report_at one_trap ≡ reports_of_one }
    ensures with_first { map report_at with_first ≡ reports_with_first }
    ensures with_second { map report_at with_second ≡ reports_with_second }
    ensures with_third { map report_at with_third ≡ reports_with_third }
    ensures with_fourth { map report_at with_fourth ≡ reports_with_fourth }
    ensures with_fifth { map report_at with_fifth ≡ reports_with_fifth }
    ensures with_sixth { map report_at with_sixth ≡ reports_with_sixth }
    ensures with_seventh { map report_at with_seventh ≡ reports_with_seventh }
{}
