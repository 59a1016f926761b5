// The check: all steps of a file, in document 01's order, the answer and the rows.
#![tactic(auto)]

pub mod check;
mod groups;
