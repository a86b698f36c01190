// Signed numbers and words in a proof: all of it stands in specs/, no code.
#![tactic(auto)]
