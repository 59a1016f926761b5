// The rules on types and the type list (number 3), and on fields, structs and built-ins (number 4).
#![tactic(auto)]

pub mod tables;
pub mod types;
