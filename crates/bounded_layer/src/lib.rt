// Layers, which say which parts occur within a few links of each node, and one pass of striking over such a layer.
#![tactic(auto)]

pub mod layer;
pub mod pass;
