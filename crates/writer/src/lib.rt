// The writer: one sub-frame at a time into a lent frame (document 01, "Refusal numbers").
#![tactic(auto)]

mod content;
mod lead;
pub mod primary;
pub mod signalled;
mod write;
