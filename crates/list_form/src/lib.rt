// What a list of processors is, byte by byte, and the laws of it; no code.
#![tactic(auto)]
