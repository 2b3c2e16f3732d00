// The book of the index: definitions in specs/, laws in proofs/. No code here.
#![tactic(auto)]
