// What the programs share: the bytes of a file, read to its end or not at all, and the exit status of a program.
#![tactic(auto)]

pub mod failure;
pub mod input;
pub mod status;
