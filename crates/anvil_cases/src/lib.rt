//! Tests of the whole tool over memory, in which loads and puts fail in turn.
#![tactic(auto)]

#[cfg(test)]
mod calls;
#[cfg(test)]
mod faults;
#[cfg(test)]
mod programs;
