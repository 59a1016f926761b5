// Answers of typing: judgements and rows, expressions without children, and tests on types.
#![tactic(auto)]

pub mod answer;
pub mod file;
pub mod leaves;
