// Finish ticks: what a run writes, as a definition; no code.
#![tactic(auto)]
