// What a ticket is judged on, and the verdict: all that is carried out then. A verdict is small values. It has no TxId, and neither has
// what is judged: only opening an order needs it, which is carrying out. Nor has it the rows followed, which are those of the order's
// way. One amount is enough: what is told is what moves, and where nothing moves the order's amount is told, or what was returned of it.
// Who stays put is participant 0 (`stays_put`), so every number of a verdict is in range where those of what was found are
// (`verdict-in-range`). Participants are as wide as in the book: a narrower number would ask every caller that it fits.
use super::decision::Move;
use super::{Cover, Status};
use dayfile::route::Way;
use ticket::kinds::Kind;

// The order that a ticket is about, as far as it is looked at.
#[derive(Clone, Copy)]
pub struct About {
    pub payer: usize,
    pub payee: usize,
    pub amount: u64,
    pub status: Status,
}

// Of what was found for a ticket, all that is looked at.
#[derive(Clone, Copy)]
pub struct Facts {
    // the ticket's; its time is the clock
    pub kind: Kind,
    pub amount: u64,
    pub clock: u32,
    // the participant that sends it, and its cover
    pub sender: Option<usize>,
    pub cover: Cover,
    // the order with the payer and the TxId that it names, and whether that order's payee is a bank
    pub order: Option<usize>,
    pub about: About,
    pub bank: bool,
    // the route row with its payee BIC, and where that leads
    pub route: Option<usize>,
    pub way: Option<Way>,
    // of the book: orders held, held or open debit anywhere, all cover
    pub count: usize,
    pub unconfirmed: bool,
    pub total: u64,
}

// What becomes of the order and of the book: nothing, a new order, another status of the order it is about, a cut.
#[derive(Clone, Copy)]
pub enum Does {
    Nothing,
    Opens,
    Becomes(Status),
    Cuts,
}

// Who moves, and how. Who stays put is participant 0: `Stay` is the case of no move, and an Option would be a second one.
#[derive(Clone, Copy)]
pub struct Mover {
    pub who: usize,
    pub how: Move,
}

// A report: to whom, and its code.
#[derive(Clone, Copy)]
pub struct Notice {
    pub to: usize,
    pub code: u8,
}

// Of a refused ticket all but the refusal is nothing.
#[derive(Clone, Copy)]
pub struct Verdict {
    // 0 is none, as in the answer that is handed out
    pub refusal: u8,
    pub does: Does,
    // the order that is told of, 0 if none: the one that the ticket is about, or the new one
    pub number: usize,
    // one or two covers move, the first before the second, by one amount, which the reports carry too
    pub first: Mover,
    pub second: Mover,
    pub amount: u64,
    // the reports: there is no second without a first
    pub told: Option<Notice>,
    pub also: Option<Notice>,
}
