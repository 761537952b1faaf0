// What the calls do as a caller sees it: where paths lead afterwards, what stands there, and how many blocks are free. Laws, no code.
#![tactic(auto)]
