// The laws of the definitions, in proofs/. There is no code here.
#![tactic(auto)]
