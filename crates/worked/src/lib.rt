#![tactic(auto)]

// Worked cases: what documents 01 and 02 say of small inputs, in numbers. It has no code of its own.
