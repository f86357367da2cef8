// Tasks that come every T, and a pattern as a script: definitions and their laws; no code.
#![tactic(auto)]
