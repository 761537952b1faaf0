// The way to an entry and the names along it, its path, and what the calls leave of both: definitions and laws, no code.
#![tactic(auto)]
