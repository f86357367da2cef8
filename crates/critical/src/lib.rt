// The release pattern in which a job waits as long as the response test says: its definition, and that it does so in the step machine; no code.
#![tactic(auto)]
