// Where each field of a ticket begins: 01 'The ticket, 108 bytes'. A field ends where the next begins.
pub const KIND: usize = 0;

pub const FLAG: usize = 1;

pub const SPARE: usize = 2;

pub const TIME: usize = 4;

pub const AMOUNT: usize = 8;

pub const SENDER: usize = 16;

// an order's
pub const PAYEE: usize = 27;

// of the order that kinds 4 to 8 name
pub const PAYER: usize = 27;

pub const TXID: usize = 38;

pub const IBAN: usize = 73;

pub const LAST: usize = 107;

pub const LENGTH: usize = 108;
