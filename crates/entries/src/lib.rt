// The entries of a batch: what one line of its text asks for.
#![tactic(auto)]

pub mod entry;
pub mod laws;
pub mod read;
mod take;
mod word;
pub mod write;
