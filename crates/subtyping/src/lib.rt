// Subtyping on type numbers, and the subtype question.
#![tactic(auto)]

pub mod below;
pub mod question;
mod unequal;
