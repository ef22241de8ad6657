// What the voice card is handed (document 01, "Frame and sub-frame").
#![tactic(auto)]

pub mod handing;
