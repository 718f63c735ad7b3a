// Lists of keys: learning, dropping, removing, the five nearest, and what a history of these leaves.
// No code: definitions, laws.
#![tactic(auto)]
