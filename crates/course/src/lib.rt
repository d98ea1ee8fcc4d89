// A ticket's step as one way for every ticket, refused or not. There is no code here: specs/ says what is taken up, sought, judged and
// carried out, and proofs/ has the laws by which that is the step of `rules`. The rules are written to be read beside 01, with a case for
// each way a ticket can go; what is proved of one way is proved once. `step-taken` says that the two are the same step.
#![tactic(auto)]

use rules::Order;
use rules::decision::{Decision, Told, Transfer};
use ticket::kinds::Kind;

// A ticket as it is taken up. One that 7 to 11 refuse is a tick at the clock.
#[derive(Clone, Copy)]
pub struct Entry {
    pub refusal: u8,
    pub kind: Kind,
    pub time: u32,
    pub amount: u64,
}

// What becomes of an order that the clock is held against: one that is not due stays as it is.
#[derive(Clone, Copy)]
pub struct Expiry {
    pub order: Order,
    pub freed: Transfer,
    pub told: Told,
}

// The refusal, 0 if none, and what is decided: of a refused ticket, that all stays as it is.
#[derive(Clone, Copy)]
pub struct Judged {
    pub refusal: u8,
    pub decision: Decision,
}
