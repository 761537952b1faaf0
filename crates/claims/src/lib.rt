// What a decision of soundness claims, and that its claims hold exactly on a sound volume: definitions and laws, no code.
#![tactic(auto)]
