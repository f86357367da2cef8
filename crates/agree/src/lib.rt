// Sales and workshop see one plan: whatever the planner writes for an order, the check accepts for that order; no code.
#![tactic(auto)]
