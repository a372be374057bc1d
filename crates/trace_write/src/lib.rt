// The lines that a trace prints.
#![tactic(auto)]

pub mod detail;
pub mod lines;
mod words;
