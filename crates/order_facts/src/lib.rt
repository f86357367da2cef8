// What reading and writing orders mean, as theorems about the definitions; no code.
#![tactic(auto)]
