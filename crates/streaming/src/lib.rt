// A recording streamed from standard input, and what is told of it to standard output: what the programs over recordings do alike.
#![tactic(auto)]

pub mod all;
pub mod input;
pub mod output;
