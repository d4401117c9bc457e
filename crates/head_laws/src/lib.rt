#![tactic(auto)]

// The head keeps its promises over every run: see specs/. There is no code.
