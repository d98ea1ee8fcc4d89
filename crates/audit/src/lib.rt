// Demand 3. There is no code here: specs/ has the claim, proofs/ what it was tried on. What the proof carries along the list (`Carried`,
// with `Agrees`) is stronger than the claim: for each order how its status and its endings agree, for each participant what the last cut
// report says of held and open debit. The claim follows from it (`claim-follows`); it holds of every sound book and the history that
// starts from it (`start-agrees`), and each way of calling the code carries it on. One event is the expiries and then the ticket's own
// step: `agrees_after` takes what each does to an order (nothing, a repeat, its end) and to a cover, and each kind only shows what it
// does.
#![tactic(auto)]
