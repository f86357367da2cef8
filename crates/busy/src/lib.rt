// Condition 3: from facts about what is served and what is released to the response of every job, and that the machine has those facts; no code.
#![tactic(auto)]
