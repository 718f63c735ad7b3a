// The wire as an auditor reads it: statements in specs/, theorems of the same names in proofs/. No code.
#![tactic(auto)]
