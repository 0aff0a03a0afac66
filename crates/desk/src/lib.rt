// What the programs of a support desk share: what a command asks for, the reading of a batch with its files, and what is printed.
#![tactic(auto)]

pub mod asked;
pub mod failure;
mod files;
mod messages;
pub mod program;
pub mod settle;
