// The cases of document 01 and 02 as a table: no code. specs/ has the table and what is said of it, proofs/
// that it holds. The program that makes the calls of each case and compares is the crate cases.
#![tactic(auto)]
