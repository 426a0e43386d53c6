// What follows from the definitions of the reader: no code.
#![tactic(auto)]
