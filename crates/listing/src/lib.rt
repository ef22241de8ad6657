// The listing of a recording, as functions on slices (document 01, "Listing program").
#![tactic(auto)]

pub mod listing;
pub mod stream;
