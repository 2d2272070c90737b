// The report: a line for each centre with a place, and a last line; or one line for a refused file.
#![tactic(auto)]

pub mod lines;
