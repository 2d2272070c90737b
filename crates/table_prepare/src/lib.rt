// What the match table is made from: masks of the pattern's links, neighbour tables of the board, and lists of nodes.
#![tactic(auto)]

pub mod lookups;
pub mod masks;
pub mod nodes;
