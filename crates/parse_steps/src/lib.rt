//! What serves the reading of every part of a file.
//!
//! `step` has what a token comes to at a state, `label` names with their places, `expect` the tokens that are wanted at a state, `width`
//! the reading of `logic [ width ]`, and `counts` the limits.
#![tactic(auto)]

mod counts;
mod expect;
mod label;
mod step;
mod width;

pub use counts::Counts;
pub use expect::{await_mark, is_key, side, word};
pub use label::Label;
pub use step::{Begin, Begun, Reached, begins, goes_on};
pub use width::{Width, WidthState, width_step};
