// What the customer was promised, in one file; no code.
#![tactic(auto)]
