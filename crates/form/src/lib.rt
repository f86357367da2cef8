// What the order form's text is, byte by byte, and the laws of it; no code.
#![tactic(auto)]
