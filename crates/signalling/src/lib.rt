// Signalling payloads (document 01, "Payload types": signalling; FRF.11, Annex B).
#![tactic(auto)]

pub mod layout;
