//! The grammar of a source file: which lists of tokens are a file, and when a list of tokens is refused.
#![tactic(auto)]

mod error;
mod laws;

pub use error::{Counted, ParseErr};
pub use laws::{
    accepted_has_no_refusal, accepted_is_few, acts_are_in_order, each_has_one_tree,
    first_refusals_are_same, trees_are_in_order,
};
