// The types of the settlement desk. There is no code here: specs/ says what the desk makes of a cut's reports, of participant rows and
// of the balances of settlement accounts.
#![tactic(auto)]

// Where money lies, for one participant: specs/Places.antt gives the numbers.
#[derive(Clone, Copy)]
pub enum Place {
    Account,
    SubAccount,
    House,
    HouseSubAccount,
}

// From and to are numbers of places.
#[derive(Clone, Copy)]
pub struct Transfer {
    pub from: u8,
    pub to: u8,
    pub amount: u64,
}

// 27
#[derive(Clone, Copy)]
pub enum Checked {
    Right,
    Wrong,
}

// The answer: the refusal, 0 if none, and how many transfers and confirm tickets are written.
#[derive(Clone, Copy)]
pub struct Settled {
    pub refusal: u8,
    pub transfers: u8,
    pub tickets: u8,
}
