#![tactic(auto)]

// A message as ten words of 64 bits: see specs/. There is no code.
