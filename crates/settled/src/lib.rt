// One answer only: for each public function, what meets its contract is one result and one content of every lent buffer. No code.
#![tactic(auto)]
