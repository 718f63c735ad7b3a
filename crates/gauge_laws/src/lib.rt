// What holds of the calls, whichever is made: statements in specs/, theorems of the same names in proofs/. No code.
#![tactic(auto)]
