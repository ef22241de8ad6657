// Lines that the programs print, put into lent room: a name with a number or with octets, or a text, and LF.
#![tactic(auto)]

mod append;
pub mod field;
pub mod hex;
pub mod line;
pub mod refused;
