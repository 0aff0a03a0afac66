// Tests of the crates below, through what they make public: examples and the edges of the rules.
#![tactic(auto)]

#[cfg(test)]
mod calls;
#[cfg(test)]
mod limits;
#[cfg(test)]
mod measured;
#[cfg(test)]
mod meters;
#[cfg(test)]
mod seasons;
#[cfg(test)]
mod statements;
#[cfg(test)]
mod summers;
#[cfg(test)]
mod tables;
