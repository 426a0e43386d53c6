// What follows from the promise of choose: laws in proofs/. No code.
#![tactic(auto)]
