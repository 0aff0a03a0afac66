// Tests of a batch's lines, of what a desk is told of a batch that cannot be read, and of the words of a command.
#![tactic(auto)]

#[cfg(test)]
mod commands;
#[cfg(test)]
mod lines;
#[cfg(test)]
mod shown;
#[cfg(test)]
mod unreadable;
