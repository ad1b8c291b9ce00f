//! The classes of channels of a file, read token by token.
//!
//! `class` reads a class, `message` the messages in it.
#![tactic(auto)]

mod class;
mod message;

pub use class::{ClassState, class_step};
