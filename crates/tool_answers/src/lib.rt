//! What a call of the tool answers.
#![tactic(auto)]

mod lines;
mod refusal;
mod status;

pub use anvil_io::{LoadErr, Sink, SinkFault};
pub use lines::{
    complain_load, complain_memory, complain_promise, complain_refusal, complain_usage,
};
pub use refusal::{Code, Refusal, spelling};
pub use status::Status;
