// The step machine of document 01: what each partition holds before a tick, the step, and finish ticks; no code yet.
#![tactic(auto)]
