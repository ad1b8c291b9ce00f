//! Tests of the text of modules: texts that were written out by hand are read and written again, or refused at their places.
#![tactic(auto)]

#[cfg(test)]
mod refused;
#[cfg(test)]
mod texts;
#[cfg(test)]
mod written;
