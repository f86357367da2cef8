// Definitions and laws about choices, lists, fronts and searches that know nothing of orders; no code.
#![tactic(auto)]
