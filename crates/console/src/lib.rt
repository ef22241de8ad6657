// Lines of standard input and output, for the programs for tests: a key, and octets in hex behind it.
#![tactic(auto)]

pub mod hex;
pub mod input;
pub mod key;
pub mod lines;
pub mod print;
