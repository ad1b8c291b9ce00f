//! The tree of a list of tokens, or the first reason why there is none.
//!
//! `parse` goes over the tokens once. `state` says where the reading of a file stands between two tokens, and takes it
//! on in place; `parse_classes` and `parse_processes` read the parts of a file, and the counts of `parse_steps` keep the limits.
#![tactic(auto)]

mod parser;
mod state;

pub use anvil_grammar::{
    Counted, ParseErr, accepted_has_no_refusal, accepted_is_few, acts_are_in_order,
    each_has_one_tree, first_refusals_are_same, trees_are_in_order,
};
pub use anvil_lexer::Token;
pub use anvil_tree::File;
pub use parser::parse;
