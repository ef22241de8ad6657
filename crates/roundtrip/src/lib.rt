// Demand 2 as theorems; specs/Demand2.antt says them. No code.
#![tactic(auto)]
