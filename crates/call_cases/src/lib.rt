//! Tests of the crates below the tool: what no clause says, and each call that can answer want of memory, once with enough of it.
#![tactic(auto)]

#[cfg(test)]
mod answers;
#[cfg(test)]
mod names;
#[cfg(test)]
mod nets;
#[cfg(test)]
mod orders;
#[cfg(test)]
mod samples;
#[cfg(test)]
mod shelves;
#[cfg(test)]
mod sinks;
#[cfg(test)]
mod sources;
#[cfg(test)]
mod stimuli;
#[cfg(test)]
mod streams;
#[cfg(test)]
mod tokens;
#[cfg(test)]
mod turns;
#[cfg(test)]
mod unsteady;
