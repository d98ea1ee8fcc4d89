// The law of 02, slip 6, about lists that are written for the rules by TxId alone. There is no code here. specs/ has those rules, which
// differ from the present ones in two definitions (`form_by_txid` for `form_of`, `order_by_txid` for `order_in`), what it is for a list to be
// such a list (`Old`), and what it is for another to be the same with the payers named (`Renamed`). proofs/ proves that from the fresh
// book of every day file the steps of the two are the same, whole (`old-lists`), that for every such list there is one with the payers
// named (`payers-named`); `Days.antt` has days on which one premise or the other fails. What the proof carries along the list: each
// order in the book came from an order ticket of the list (`Sourced`).
#![tactic(auto)]
