//! The module that is being read, line by line: what has been read of it, found by its names, and what each line comes to.
#![tactic(auto)]

mod clock_steps;
mod declarations;
mod draft;
mod fault;
mod header;
mod item_steps;
mod key;
mod nets;
mod operands;
mod operators;
mod output_steps;
mod ports;
mod registers;
mod room;
mod step;
mod wanted;
mod widths;

pub use draft::Draft;
pub use fault::Fault;
pub use room::push;
pub use step::draft_step;
pub use wanted::{Reached, Wanted};
