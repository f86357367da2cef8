// Condition 3, what our yes means: the theorem over the check's and the machine's own definitions; no code.
#![tactic(auto)]
