// Gauges that are wrong in one thing, each shut out by what is signed. No code.
#![tactic(auto)]
