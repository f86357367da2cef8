// The points on the line, P1 to P12: one proved table about the definitions; no code.
#![tactic(auto)]
