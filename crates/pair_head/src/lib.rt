#![tactic(auto)]

// The head as one end of the pair, and the laws that it owes: see specs/ and proofs/. There is no code.
