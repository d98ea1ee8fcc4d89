// The named elements by their rows in the slip, counted from 0 (`rows` of specs/Named.antt).
ghost use Rattle.std.specs.Prelude.{◌<◌};

pub const SENDER: usize = 5;

pub const TXID: usize = 8;

pub const AMOUNT: usize = 9;

pub const PAYEE: usize = 12;

pub const IBAN: usize = 15;

pub const COUNT: usize = 16;

#[derive(Clone, Copy)]
pub struct Row {
    pub number: usize,
    ghost in_range: { number < 16 },
}

// What an element is, or what stands around the root: one of the named elements, or none of them. Each number is that of one role.
#[derive(Clone, Copy)]
pub enum Role {
    Outside,
    Named(Row),
    Skipped,
    // The number so far behind that of what is skipped. No element has it; as that of a parent it has no named element in it.
    Other(usize),
}
