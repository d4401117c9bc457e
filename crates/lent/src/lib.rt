#![tactic(auto)]

// What walks over lent slices share: see specs/ and proofs/. There is no code.
