// Theorems alone: what the fax replay hands on of what was sent (document 02, wish 1).
#![tactic(auto)]
