// What "exact" means is all in specs/: definitions and laws, no code.
#![tactic(auto)]
