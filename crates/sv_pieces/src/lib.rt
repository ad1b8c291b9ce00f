//! Reads the pieces of a line of a module's text, and the lines that are read without the module before them.
#![tactic(auto)]

mod lines;
mod literals;
mod names;
mod operators;
mod pieces;
mod targets;
mod wires;

pub use lines::{Declared, Label, declaration, label_of, opening};
pub use literals::{last_literal, literal_of};
pub use names::{good_name, is_name};
pub use operators::{operator_at, sliced};
pub use pieces::{Run, after, cut, number_at, run_at};
pub use targets::{assigned, written};
pub use wires::{WireLine, comma_of, is_data, is_wire_of, port_of, wire_line, wire_of};
