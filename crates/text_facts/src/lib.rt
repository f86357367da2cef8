// What the order form's text means, read and written; no code.
#![tactic(auto)]
