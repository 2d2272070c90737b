// What is asked of proposed bytes alone: their tests.
#![tactic(auto)]

pub mod marks;
