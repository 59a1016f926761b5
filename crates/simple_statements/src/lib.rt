// Statements without statements in them, and a for's vars and condition: each kind's rule, over type numbers.
#![tactic(auto)]

pub mod marks;
pub mod simple;
