// Runs of real frames, octet for octet, which show that no demand of `history` is empty: what each of them gives, to the last event. There is
// no code here: specs/ has the runs, proofs/Guards.antt the one proof about all of them.
#![tactic(auto)]
