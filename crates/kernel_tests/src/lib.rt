//! Tests of the public calls of the kernel: records and areas, screens, frames, addresses, processes, calls and commits.
#![tactic(auto)]

#[cfg(test)]
mod address_space_tests;
#[cfg(test)]
mod areas_tests;
#[cfg(test)]
mod frame_table_tests;
#[cfg(test)]
mod intent_store_tests;
#[cfg(test)]
mod plants;
#[cfg(test)]
mod process_table_tests;
#[cfg(test)]
mod record_layouts_tests;
#[cfg(test)]
mod small_view;
#[cfg(test)]
mod spaces_tests;
#[cfg(test)]
mod syscalls_tests;
#[cfg(test)]
mod tty_screen_tests;
