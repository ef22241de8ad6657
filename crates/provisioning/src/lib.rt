// The provisioning text (document 01, "Provisioning text").
#![tactic(auto)]

mod line;
pub mod text;
