// Claims about lists of processors, read and written, and their proofs; no code.
#![tactic(auto)]
