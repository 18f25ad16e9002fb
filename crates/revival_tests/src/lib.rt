//! Tests of a revival: what it makes of the words that a dead kernel left, whatever words stood where the new one is built.
#![tactic(auto)]

#[cfg(test)]
mod half;
#[cfg(test)]
mod images;
#[cfg(test)]
mod memories;
#[cfg(test)]
mod random;
#[cfg(test)]
mod revival_tests;
