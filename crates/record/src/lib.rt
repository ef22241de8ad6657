// What is provisioned on a sub-channel, and the lent table of it (document 01, "Provisioning text").
#![tactic(auto)]

pub mod syntax;
pub mod table;
