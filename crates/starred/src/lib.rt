// The cases that the paper marks * in "Both sides of the line", as one statement: specs/Cases.antt has the list, proofs/Starred.antt the
// proof. There is no code here: what the cases ask is what the contracts of crc, frame, packet and transport promise of theirs.
#![tactic(auto)]
