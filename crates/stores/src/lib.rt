// Pair stores: what the table works on, whatever keeps the pairs.
#![tactic(auto)]

pub mod faults;
pub mod pairs;
pub mod plans;
pub mod swaps;
pub mod views;
