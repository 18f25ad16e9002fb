//! The processes of a kernel: which one is next, and what its record becomes when its slice ends, when a signal goes
//! to it, when it forks or takes a child that has ended, and when it ends. All is read from a view of records, and what
//! is to be changed is answered as a patch.
#![tactic(auto)]

mod children;
mod choice;
mod laws;
mod patches;
mod signals;
mod slots;

pub use children::{ended_child, has_live_child};
pub use choice::{Choice, choose};
pub use laws::{
    all_slots_are_taken, an_end_is_an_end, choices_agree, ended_children_keep_slots,
    patches_keep_descriptors, saves_only_count, signals_agree, sound_records_stay_sound,
    sums_over_pids_are_over_slots, waits_agree,
};
pub use ow_base::{Bank, Now};
pub use patches::{end_process, fork_process, save_bank, take_child, take_signal};
pub use record_layouts::{Patch, RecordView};
pub use signals::signal_of;
pub use slots::{free_slot, next_pid};
