// What a book finds in a ticket: all that refusals from 12 on and the ticket's own step look at. No function takes one: the code hands on
// `Facts`, in verdict.rt, without the TxId.
use super::{Cover, Order};
use dayfile::route::Way;
use ticket::kinds::Kind;

#[derive(Clone, Copy)]
pub struct Finding {
    // the ticket's; its time is the clock
    pub kind: Kind,
    pub amount: u64,
    pub clock: u32,
    pub txid: [u8; 35],
    // the participant that sends it, and its cover
    pub sender: Option<usize>,
    pub cover: Cover,
    // the order with the payer and the TxId that it names, and whether that order's payee is a bank
    pub order: Option<usize>,
    pub about: Order,
    pub bank: bool,
    // the route row with its payee BIC, and where that leads
    pub route: Option<usize>,
    pub way: Option<Way>,
    // of the book: orders held, held or open debit anywhere, all cover
    pub count: usize,
    pub unconfirmed: bool,
    pub total: u64,
}
