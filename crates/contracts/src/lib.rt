// What it is that results meet a contract, for the theorems that speak of contracts; specs/Meeting.antt says it. No code.
#![tactic(auto)]
