// Striking where a link of the pattern may be met by a path of a few board links: one pass for each direction and
// bound.
#![tactic(auto)]

// The masks of a pattern in one direction: for each bound from 1 to 4, for each of 32 parts the parts that it has a
// link of that bound to.
pub const WAY_MASKS: usize = 128;

// The masks in both directions, forward first.
pub const BOUND_MASKS: usize = 256;

pub mod round;
