// What holds of the old form's two ways together; no code.
#![tactic(auto)]
