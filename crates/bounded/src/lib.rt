// What bounds every call, as theorems about the definitions, in proofs/. There is no code here.
#![tactic(auto)]
