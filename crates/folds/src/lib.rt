// Lists and loops: definitions in specs/, their laws in proofs/. No code.
#![tactic(auto)]
