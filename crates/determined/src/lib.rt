// Any two results that a contract permits are equal: one statement, and an instance for each public function. Laws only, no code.
#![tactic(auto)]
