// The rules on the node tree (number 5).
#![tactic(auto)]

pub mod demands;
pub mod shape;
pub mod tree;
