//! What waits in the reading of a thread, and what is made of it.
//!
//! `stack` has the frames of acts and terms, the innermost on top; `parts` the acts and terms that are made of their parts.
#![tactic(auto)]

mod parts;
mod stack;

pub use parts::{block, either, linked, receive, send, set, when};
pub use stack::{Frame, Joint, Link, Stack, TermFrame};
