// The answers of the checks that are made on a book, a case for each refusal.

// 6: the report buffer.
#[derive(Clone, Copy)]
pub enum Buffer {
    Enough,
    Short,
}

// 11: the ticket's time.
#[derive(Clone, Copy)]
pub enum Timing {
    InTime,
    Early,
}

// 12 to 16: who and what is named.
#[derive(Clone, Copy)]
pub enum Naming {
    Known,
    NoParticipant,
    KeyHeld,
    NoRoute,
    Full,
    KeyNotHeld,
}

// 17, 18, 26, 19: whether this may be done.
#[derive(Clone, Copy)]
pub enum Permission {
    Granted,
    WrongParty,
    WrongStatus,
    TooLate,
    AboveOrder,
}

// 20 to 22: whether there is cover and room.
#[derive(Clone, Copy)]
pub enum Backing {
    Backed,
    TooLittle,
    NotAsCut,
    AboveLimit,
}
