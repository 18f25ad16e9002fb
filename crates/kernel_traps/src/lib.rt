//! The traps of a kernel that runs: what a call asks for is carried out on the plant, so that its records count each
//! byte before it goes out, and the trap ends with the last of its records.
#![tactic(auto)]

mod booting;
mod ended;
mod ending;
mod laws;
mod services;
mod serving;
mod traps;
mod turns;
mod user;

pub use booting::{boot, worlds_can_boot};
pub use ended::all_have_ended;
pub use laws::{entries_have_the_image_of_the_plant, sound_plants_have_sound_images};
pub use serving::{serve_trap, shutdown};
pub use turns::Turn;
