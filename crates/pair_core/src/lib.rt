#![tactic(auto)]

// Head and floor box together, demand 3: see specs/ and proofs/. There is no code.
