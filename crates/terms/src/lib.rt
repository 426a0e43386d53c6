// The paper's terms: definitions in specs/. No code.
#![tactic(auto)]
