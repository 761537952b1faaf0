// Worked cases and traps of document 01 computed from the definitions, and the theorems at work on a volume: nothing to run.
#![tactic(auto)]
