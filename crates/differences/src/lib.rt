// Where two books differ: what the list of spans is, in specs/, and theorems about it, in proofs/. There is no code here.
#![tactic(auto)]
