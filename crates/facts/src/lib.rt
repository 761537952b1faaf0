// What a sound volume gives the code that reads and writes it: definitions and laws, no code.
#![tactic(auto)]
