// How many additions steps cost: no code. specs/ has the definitions and the statements, proofs/ their proofs
// and examples. The additions are counted where steps are made, in the crate stepping.
#![tactic(auto)]
