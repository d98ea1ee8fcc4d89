// Demand 3 of the code. There is no code here: specs/ has what a caller sees of the calls he makes, proofs/ that the claim holds of it.
#![tactic(auto)]
