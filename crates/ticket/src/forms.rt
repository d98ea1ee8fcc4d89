// The fields that a kind lists, and its amounts.

// Whether a kind lists a sender, a BIC in bytes 27 to 37 (an order's payee, in kinds 4 to 8 the payer), a TxId, an IBAN; its amounts,
// where most is 0 if it lists none.
#[derive(Clone, Copy)]
pub struct Form {
    pub sender: bool,
    pub payee: bool,
    pub txid: bool,
    pub iban: bool,
    pub least: u64,
    pub most: u64,
}
