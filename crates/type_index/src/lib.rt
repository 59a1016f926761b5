// An index of a file's types, so that equal types, the struct that a type names, well-formedness and a type's parts are found at once.
#![tactic(auto)]

mod entries;
pub mod formed;
pub mod index;
pub mod parts;
mod records;
pub mod same;
mod walk;
