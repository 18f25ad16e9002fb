//! The resurrector: from what a kernel left that panicked, it builds one that can go on, in frames of its own.
#![tactic(auto)]

mod abort_laws;
mod count_laws;
mod flights;
mod laws;
mod left;
mod painting;
mod plants;
mod procedures;
mod resurrecting;
mod revived;
mod sound_laws;
mod survivors;

pub use abort_laws::{
    built_kernels_are_revived, revived_kernels_are_of_abort, told_fates_are_of_abort,
};
pub use count_laws::tries_are_short;
pub use laws::{revived_processes_are_outside, revived_records_decode};
pub use plants::resurrect;
pub use procedures::revive;
pub use record_layouts::Fate;
pub use resurrecting::{Revival, resurrect_into};
pub use sound_laws::{bytes_put_are_of_images, revived_images_are_sound};
