// The exact value of a polynomial, of a rational curve and of a sum of quotients. There is no code:
// specs/Curve.antt says what is claimed, proofs/Value.antt and proofs/Quotients.antt prove it, and the
// examples beside them spell it out at small orders.
#![tactic(auto)]
