// Statements and blocks: each kind's rule, over type numbers. Answers and rows are those of the definition.
#![tactic(auto)]

pub mod cycle;
