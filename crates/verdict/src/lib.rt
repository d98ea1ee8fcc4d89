// The judgement of a ticket, check by check. There is no code here: specs/ has the first refusal from 12 on of each kind and the
// verdict of each step, and proofs/ the law by which a verdict stands for the decision of `rules`. The rules decide by one record for all
// kinds. `judged-verdict` says that both judge alike: the decision that a verdict stands for (`judged_by`) is what `course` judges. For
// each kind it is one law on truth values, and one for 'refused, or the step'; all that is proved of decisions, soundness and demand 3
// among them, so holds of verdicts. Without code a chain in another order is refused in seconds. Must-fail edits of the order are of the
// definition: in the code a swap of two checks gives its places other names, and the refusal would show nothing. That the code has the
// definition's order is its contract.
#![tactic(auto)]
