// The participants and the routes of a day, by value.
ghost use Rattle.std.specs.Prelude.{◌≡◌};
ghost use Rattle.dayfile.specs.Roster.{bank_kind};

use super::limits;

#[derive(Clone, Copy, PartialEq, Eq)]
pub enum PartyKind {
    Bank,
    Linked,
}

// The opening cover stands here if the participant wishes one.
#[derive(Clone, Copy)]
pub struct Participant {
    pub bic: [u8; 11],
    pub kind: PartyKind,
    pub opening: Option<u64>,
}

pub fn is_bank(p: Participant) -> bool
    ensures { result ≡ bank_kind p.kind }
{
    p.kind == PartyKind::Bank
}

// Where a route row leads: to a participant, or on to an earlier row.
#[derive(Clone, Copy)]
pub enum Target {
    To(usize),
    Row(usize),
}

#[derive(Clone, Copy)]
pub struct Route {
    pub bic: [u8; 11],
    pub target: Target,
}

// The first size participants and the first rows route rows are in use. Arrays with a count beside, since there is no heap.
#[derive(Clone, Copy)]
pub struct Roster {
    pub participants: [Participant; limits::MOST_PARTICIPANTS],
    pub size: usize,
    pub routes: [Route; limits::MOST_ROUTES],
    pub rows: usize,
}
