// Demand 3 for digits and for signalling, through the octets of the payloads; specs/ says it. No code.
#![tactic(auto)]
