//! The order of points in time, as least relations over any type of points.
#![tactic(auto)]

pub mod laws;
pub mod nodes;
