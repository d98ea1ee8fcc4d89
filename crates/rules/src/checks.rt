// The answers of the checks from 12 on, an enum for each. The case that passes carries what the checks behind it and the step take from it.
// specs/Checks.antt says when each is given, and the refusal's number. 21 has two, since a cut and a confirm look at different things; 18
// has one enum and a check for each status that a step needs. They are enums of their own and no Option or Result: `let .. else` names the
// case that passes, and answers the refusal's number in the other.
use super::decision::Move;

// 12: the participant's number.
#[derive(Clone, Copy)]
pub enum Sender {
    Is(usize),
    NoParticipant,
}

// 13
#[derive(Clone, Copy)]
pub enum Key {
    New,
    AlreadyHeld,
}

// 14: the participant that the row leads to.
#[derive(Clone, Copy)]
pub enum Payee {
    Reached(usize),
    NoRoute,
}

// 15
#[derive(Clone, Copy)]
pub enum Space {
    Left,
    Full,
}

// 16: the order's number.
#[derive(Clone, Copy)]
pub enum Held {
    Number(usize),
    NotHeld,
}

// 17
#[derive(Clone, Copy)]
pub enum Party {
    Right,
    Wrong,
}

// 18
#[derive(Clone, Copy)]
pub enum Standing {
    AsNeeded,
    NotAsNeeded,
}

// 26
#[derive(Clone, Copy)]
pub enum Recalling {
    InTime,
    TooLate,
}

// 19
#[derive(Clone, Copy)]
pub enum Sum {
    UpToOrder,
    AboveOrder,
}

// 20
#[derive(Clone, Copy)]
pub enum Funds {
    Enough,
    TooLittle,
}

// 21, of a cut
#[derive(Clone, Copy)]
pub enum Cutting {
    AllConfirmed,
    Unconfirmed,
}

// 21, of a confirm: as a confirmed credit or debit.
#[derive(Clone, Copy)]
pub enum Confirming {
    By(Move),
    Excluded,
}

// 22
#[derive(Clone, Copy)]
pub enum Limit {
    Within,
    Above,
}
