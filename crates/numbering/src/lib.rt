// No code: the numbers and words of all entries' refusals, side by side.
#![tactic(auto)]
