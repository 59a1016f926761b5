// The steps of the check (document 01, 'Steps and the order of premises'), one for each record or declaration.
#![tactic(auto)]

pub mod context;
mod names;
mod parameters;
