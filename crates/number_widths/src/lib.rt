//! Numbers of runs stay below 2 to their widths.
#![tactic(auto)]

pub mod laws;
