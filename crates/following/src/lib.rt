// What one sub-channel's trunk does with a recording, as functions on slices (docs/FOLLOW.md).
#![tactic(auto)]

mod faxed;
mod following;
mod heard;
pub mod stream;
