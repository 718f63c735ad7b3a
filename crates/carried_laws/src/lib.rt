// What the gauge does with an AUTHORITY that carries a reading. No code.
#![tactic(auto)]
