// Fields of structs: a field by its name, fields with distinct names, and the names of a struct literal.
#![tactic(auto)]

pub mod distinct;
pub mod literal;
pub mod lookup;
