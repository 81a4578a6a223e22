#![tactic(auto)]

// The demands: theorems over the definitions of all crates. It has no code of its own.
