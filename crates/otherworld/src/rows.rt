//! Worked examples. The functions do nothing: their contracts say what the definitions come to at three worlds
//! that list no panic, whatever the entries of a history would stand for, and at the texts of refusals, and the check
//! computes it.

ghost use Rattle.std.specs.Prelude.{◌≡◌, ℕ, true, List, [], ◌∷◌, codes, Option, Some, None, ◌⊎◌};
ghost use Rattle.ow_base.specs.Outside.{appended, Rose};
ghost use Rattle.ow_base.specs.World.{IsWorld};
ghost use Rattle.record_layouts.specs.Unix.Panics.{Images, RunWith};
ghost use Rattle.record_layouts.specs.Unix.Turn.{ending_of, closed};
ghost use Rattle.record_layouts.specs.Unix.PanicReport.{report_with};
ghost use Rattle.ow_base.specs.declared.worlds.World.{World};
ghost use Rattle.ow_base.specs.declared.worlds.Ending.TheVariants as ending;
ghost use Rattle.ow_plant.specs.State.{PlantState};
ghost use Rattle.otherworld.specs.declared.top.Status.{Status};
ghost use Rattle.otherworld.specs.declared.top.Status.TheVariants as status;
ghost use Rattle.world_file.specs.declared.why.Why.TheVariants.{NotBuilt, TooLarge, Number, Order, End};
ghost use Rattle.world_file.specs.WorldRefusals.{IsRefused};
ghost use Rattle.otherworld.specs.Top.{Answers, Intends, bad_world_text, read_fault_text, memory_text, usage_text};
ghost use Rattle.otherworld.specs.Rows.{exit_seven, exit_seven_text, exit_seven_report, hi, hi_text, hi_report, three_hi, three_hi_text, three_hi_report, few_frames_text, no_end_text, panic_twice_text, after};

/// The texts of the three worlds spell them.
pub const fn rows_are_worlds()
    ensures exit_seven { IsWorld exit_seven_text exit_seven }
    ensures hi { IsWorld hi_text hi }
    ensures three_hi { IsWorld three_hi_text three_hi }
{}

/// Texts that are refused: none at all, hi with five frames, where 16 are the fewest, exit_seven without its last line,
/// and exit_seven with a panic that is listed twice.
pub const fn rows_are_refused()
    ensures empty { IsRefused [] 1 End }
    ensures few_frames { IsRefused few_frames_text 2 Number }
    ensures no_end { IsRefused no_end_text 9 End }
    ensures order { IsRefused panic_twice_text 10 Order }
{}

/// A run of exit_seven is two instructions and a trap, and the closing trap.
pub const fn exit_seven_runs()
    ensures goes_on { (ending_of exit_seven.load.shape (after exit_seven 0) ≡ None)
        × (ending_of exit_seven.load.shape (after exit_seven 1) ≡ None)
        × (ending_of exit_seven.load.shape (after exit_seven 2) ≡ None) }
    ensures ends { ending_of exit_seven.load.shape (after exit_seven 3) ≡ Some ending.Done }
    ensures run { (images : Images) → RunWith exit_seven images [] [] ending.Done (closed (after exit_seven 3)) }
    ensures counts { ((closed (after exit_seven 3)).steps ≡ 3) × ((closed (after exit_seven 3)).traps ≡ 2) }
    ensures code { (closed (after exit_seven 3)).exits 1 ≡ Some 7 }
    ensures report { report_with exit_seven.panics [] [] ending.Done (closed (after exit_seven 3)) ≡ exit_seven_report }
{}

/// A run of hi is six instructions and two traps, and the closing trap. Its tape is `Hi` and a line feed.
pub const fn hi_runs()
    ensures ends { ending_of hi.load.shape (after hi 8) ≡ Some ending.Done }
    ensures run { (images : Images) → RunWith hi images [] [] ending.Done (closed (after hi 8)) }
    ensures counts { ((closed (after hi 8)).steps ≡ 8) × ((closed (after hi 8)).traps ≡ 3) }
    ensures code { (closed (after hi 8)).exits 1 ≡ Some 0 }
    ensures tape { ((closed (after hi 8)).terminals 0).tape ≡ 72 ∷ 105 ∷ 10 ∷ [] }
    ensures report { report_with hi.panics [] [] ending.Done (closed (after hi 8)) ≡ hi_report }
{}

/// A run of three_hi is three times that of hi, and one closing trap. The three processes end with code 0, and two of
/// them have written on terminal 0.
pub const fn three_hi_runs()
    ensures run { (images : Images) → RunWith three_hi images [] [] ending.Done (closed (after three_hi 24)) }
    ensures counts { ((closed (after three_hi 24)).steps ≡ 24) × ((closed (after three_hi 24)).traps ≡ 7) }
    ensures report { report_with three_hi.panics [] [] ending.Done (closed (after three_hi 24)) ≡ three_hi_report }
{}

/// What the contract of `otherworld` lets it answer to the words `run` and the text of hi, where no fault of
/// source or sink rises: Done, with this report, 8 steps, 3 traps, and nothing left of the input; or Memory,
/// with its text, and the plant as it was.
pub const fn hi_has_one_answer()
    ensures { (left written all : Option (List ℕ)) (old new : PlantState) (answer : Status) (reads more_reads writes more_writes : ℕ)
        → Answers (Intends true (Some hi_text) left (Rose reads more_reads) old new) (Rose writes more_writes) written all answer
        → (Rose reads more_reads → ⊥) → (Rose writes more_writes → ⊥)
        → ((answer ≡ status.Done) × (all ≡ appended written hi_report) × (new.steps ≡ 8) × (new.traps ≡ 3) × (left ≡ Some []))
        ⊎ ((answer ≡ status.Memory) × (all ≡ appended written memory_text) × (new ≡ old)) }
{}

/// The texts of the refusals.
pub const fn refusals_are_spelled()
    ensures empty { bad_world_text 1 End ≡ codes "bad world line 1: end\n" }
    ensures few_frames { bad_world_text 2 Number ≡ codes "bad world line 2: number\n" }
    ensures no_end { bad_world_text 9 End ≡ codes "bad world line 9: end\n" }
    ensures order { bad_world_text 10 Order ≡ codes "bad world line 10: order\n" }
    ensures not_built { bad_world_text 10 NotBuilt ≡ codes "bad world line 10: not built\n" }
    ensures too_large { bad_world_text 0 TooLarge ≡ codes "bad world line 0: too large\n" }
    ensures read_fault { read_fault_text ≡ codes "read fault\n" }
    ensures memory { memory_text ≡ codes "out of memory\n" }
    ensures usage { usage_text ≡ codes "usage: otherworld run | run --evidence | asm | gen N\n" }
{}
