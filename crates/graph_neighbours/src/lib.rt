// Neighbour tables of a directed graph: the nodes that each node drives, and those that drive it, one stretch of a
// table for each node.
#![tactic(auto)]

pub mod group;
pub mod neighbours;
pub mod tables;
