// Plain text: lines, words, numbers and stamps of the summer.
#![tactic(auto)]

pub mod cut;
pub mod line;
pub mod number;
pub mod parts;
pub mod stamp;
pub mod word;
