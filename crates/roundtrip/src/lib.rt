// Demand 2 for integers: what a put writes, and that a get reads it back, as theorems about the definitions, in proofs/. There is no code here.
#![tactic(auto)]
