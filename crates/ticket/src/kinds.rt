// The kind of a ticket, from its kind and flag bytes. A yes and a no are kinds of their own here.
ghost use Rattle.std.specs.Prelude.{◌≡◌};
ghost use Rattle.ticket.specs.Kind.{kinded};

#[derive(Clone, Copy)]
pub enum Kind {
    CoverIn,
    CoverOut,
    Order,
    Yes,
    No,
    Recall,
    Return,
    Decline,
    Inquiry,
    Cut,
    Confirm,
    Tick,
}

pub fn kind_of(kind: u8, flag: u8) -> Option<Kind>
    ensures { result ≡ kinded kind flag }
{
    match (kind, flag) {
        (1, 0) => Some(Kind::CoverIn),
        (2, 0) => Some(Kind::CoverOut),
        (3, 0) => Some(Kind::Order),
        (4, 1) => Some(Kind::Yes),
        (4, 2) => Some(Kind::No),
        (5, 1..=4) => Some(Kind::Recall),
        (6, 0) => Some(Kind::Return),
        (7, 1..=7) => Some(Kind::Decline),
        (8, 0) => Some(Kind::Inquiry),
        (9, 0) => Some(Kind::Cut),
        (10, 0) => Some(Kind::Confirm),
        (11, 0) => Some(Kind::Tick),
        _ => None,
    }
}
