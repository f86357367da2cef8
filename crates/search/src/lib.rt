// The smallest number of a range that passes a test: what every search of the response test answers; no code.
#![tactic(auto)]
