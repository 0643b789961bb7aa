// The theory of the recurrence of the E-method: no code. specs/ has the definitions and the statements,
// proofs/ their proofs and examples.
#![tactic(auto)]
