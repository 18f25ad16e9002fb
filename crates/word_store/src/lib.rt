//! Memory whose words are stored one by one, each by a store that may be refused.
#![tactic(auto)]

mod own;
mod storing;

pub use storing::{WordStore, store_area};
