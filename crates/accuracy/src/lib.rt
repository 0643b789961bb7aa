// Demand 3, what holds after every list of calls: no code. specs/ has the statement, proofs/ its proof and
// its examples. The functions that carry it are in the crate calls.
#![tactic(auto)]
