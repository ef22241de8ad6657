// Payloads by their sub-channel's record and their type (document 01, "Payload types").
#![tactic(auto)]

pub mod check;
pub mod layout;
