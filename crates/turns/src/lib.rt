// One turn of the core's loop over tickets. There is no code here: specs/ says what a turn and its parts are, and proofs/ has the laws on
// plain values by which it is one step of the rules. A turn that 7 to 11 refuse has one law, and so have the expiries; for each of refused
// from 12 on, did nothing, opened, changed and cut one law gives what was carried out (`CarriedOut`), and one more of that the whole turn
// (`Turned`). They take any verdict that is the one on what is sought, so the code's own result is used, and the end of a turn is one
// citation.
#![tactic(auto)]
