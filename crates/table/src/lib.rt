// The table over any store and any rule.
#![tactic(auto)]

mod additions;
mod buses;
pub mod calls;
mod checks;
mod drops;
mod evening;
pub mod faults;
mod files;
pub mod guards;
mod levels;
pub mod lists;
pub mod networks;
pub mod queues;
mod reports;
pub mod searches;
pub mod tables;
mod turning;
