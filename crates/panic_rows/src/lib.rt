//! Worked examples of runs with panics, and laws on such runs. The functions do nothing: their contracts say what the
//! definitions come to, and the check computes or proves it.
#![tactic(auto)]

mod laws;
mod rows;

pub use laws::{
    broken_traps_are_counted, hand_overs_name_callers, listed_panics_come,
    no_panics_change_nothing, one_run, pieces_are_put_in_order,
};
pub use rows::{
    calls_are_told, closing_panic_runs, damaged_byte_runs, exit_panic_runs, fates_are_told,
    first_piece_runs, hi_first_store_runs, hi_leave_runs, losses_run, partial_writes_run,
    retries_are_told, three_hi_with_panics, writers_and_loop_runs,
};
