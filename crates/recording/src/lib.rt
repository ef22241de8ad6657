// A recording: a provisioning text, then lines of frames in hex (document 01, "Listing program"), read piece by piece in fixed
// memory. What a program says of the frames is not here.
#![tactic(auto)]

pub mod pieces;
pub mod stream;
