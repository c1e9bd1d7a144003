// Every sequence of calls: no code, but the demands as theorems. specs/ has the statements, proofs/ the proofs.
#![tactic(auto)]
