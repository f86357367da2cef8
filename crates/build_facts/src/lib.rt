// What reading and writing builds mean, as theorems about the definitions; no code.
#![tactic(auto)]
