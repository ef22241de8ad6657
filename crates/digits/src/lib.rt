// Digits payloads (document 01, "Payload types": digits; FRF.11, Annex A).
#![tactic(auto)]

pub mod layout;
