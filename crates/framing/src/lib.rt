// Theorems on joining and opening frames; specs/Claims.antt says them. No code.
#![tactic(auto)]
