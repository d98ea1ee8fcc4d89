// What is decided about a ticket that no refusal applies to.
use super::Order;
use report::Report;

// How a participant's cover moves: specs/Cover.antt says what each does.
#[derive(Clone, Copy)]
pub enum Move {
    Stay,
    Give,
    Draw,
    Reserve,
    Release,
    Spend,
    Credit,
    Debit,
}

// Who moves, how, by how much.
#[derive(Clone, Copy)]
pub struct Transfer {
    pub who: usize,
    pub how: Move,
    pub amount: u64,
}

// The reports of a step, or those of a cut to one participant: at most two, so an enum. An array would have a count beside it, and places
// that nothing fills.
#[derive(Clone, Copy)]
pub enum Told {
    Nobody,
    One(Report),
    Two(Report, Report),
}

#[derive(Clone, Copy)]
pub struct Decision {
    // which order is written, what it becomes, and how many are held then
    pub number: usize,
    pub order: Order,
    pub count: usize,
    // one or two covers move, the first before the second
    pub first: Transfer,
    pub second: Transfer,
    // whether all covers are cut
    pub cuts: bool,
    pub told: Told,
    pub rows: usize,
}
