#![tactic(auto)]

// Head and box that tick together, and what each end owes the other: see specs/. There is no code.
