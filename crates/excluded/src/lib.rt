// What follows from the promises of the calls: laws in proofs/. No code.
#![tactic(auto)]
