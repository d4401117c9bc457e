#![tactic(auto)]

// What has no owner among the layers: see specs/. There is no code.
