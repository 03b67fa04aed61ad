// Demand 3 and what every call keeps, as theorems about the definitions, in proofs/. There is no code here.
#![tactic(auto)]
