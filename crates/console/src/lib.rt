// The console's lines: commands read, answers printed, input taken apart into lines.
#![tactic(auto)]

pub mod answers;
pub mod commands;
pub mod consoles;
pub mod faults;
pub mod input;
mod numbers;
pub mod parsing;
pub mod printing;
mod refusals;
#[cfg(test)]
mod tests;
