// What follows from the paper's terms alone: laws in proofs/. No code.
#![tactic(auto)]
