// The types of the book, and of what is found, asked, checked and decided when a ticket is handed in. There is no code here: specs/ says
// what every ticket does to a book.
#![tactic(auto)]

pub mod checks;
pub mod constants;
pub mod decision;
pub mod finding;
pub mod refusal;
pub mod terms;
pub mod verdict;

use dayfile::roster::Roster;

// 01: with its recall mark none, asked or declined
#[derive(Clone, Copy)]
pub enum Recall {
    None,
    Asked,
    Declined,
}

// 02, slip 5: from its settlement on an order keeps the time of it; slip 2: a returned one keeps the returned amount beside its own.
#[derive(Clone, Copy)]
pub enum Status {
    Waiting,
    Refused,
    Expired,
    Returned(u32, u64),
    Settled(Recall, u32),
}

// The TxId is stored as its 35 padded bytes; payer and payee are participant numbers.
#[derive(Clone, Copy)]
pub struct Order {
    pub txid: [u8; 35],
    pub payer: usize,
    pub payee: usize,
    pub amount: u64,
    pub time: u32,
    pub status: Status,
}

// Debit is the open debit.
#[derive(Clone, Copy)]
pub struct Cover {
    pub available: u64,
    pub reserved: u64,
    pub held: u64,
    pub debit: u64,
}

// The first count orders are in use, in arrival order.
#[derive(Clone, Copy)]
pub struct Book {
    pub clock: u32,
    pub covers: [Cover; 32],
    pub orders: [Order; 256],
    pub count: usize,
    pub roster: Roster,
}
