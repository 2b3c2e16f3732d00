// Definitions and laws of tries, without code: everything here is antt (specs/ and proofs/).
#![tactic(auto)]
