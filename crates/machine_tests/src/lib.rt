//! Tests of the public calls of the machine: bytes in and out, instructions, page tables, memory,
//! hand-overs and the plant.
#![tactic(auto)]

#[cfg(test)]
mod ow_base_tests;
#[cfg(test)]
mod ow_plant_tests;
#[cfg(test)]
mod panic_handover_tests;
#[cfg(test)]
mod phys_memory_tests;
#[cfg(test)]
mod rv32_isa_tests;
#[cfg(test)]
mod rv32_user_tests;
#[cfg(test)]
mod sv32_tables_tests;
