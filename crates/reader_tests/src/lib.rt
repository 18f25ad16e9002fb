//! Tests of the public calls that read what others wrote: the text of a world, and the memory of a dead kernel.
#![tactic(auto)]

#[cfg(test)]
mod comparing;
#[cfg(test)]
mod dead_reader_tests;
#[cfg(test)]
mod fields;
#[cfg(test)]
mod hostile_tests;
#[cfg(test)]
mod images;
#[cfg(test)]
mod left_memory;
#[cfg(test)]
mod plain_area;
#[cfg(test)]
mod plain_dead;
#[cfg(test)]
mod plain_records;
#[cfg(test)]
mod random;
#[cfg(test)]
mod world_file_tests;
