// The XML of a message, as 02's slip 3 allows it. There is no code here: specs/ has documents as trees, what each writes, and how a text
// is read from the left; proofs/ has the laws that join the two.
#![tactic(auto)]
