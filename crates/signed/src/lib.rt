// What may be signed: the demands as statements in specs/, theorems of the same names in proofs/. No code.
#![tactic(auto)]
