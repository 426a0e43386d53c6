// Document 01's small books: their readings, classes, choices and set-aside tests, under one claim in proofs/. No code.
#![tactic(auto)]
