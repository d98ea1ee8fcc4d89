// Answer of refusal 10: whether an amount is within its kind's limit; that of refusal 9 is the amount, or None. `Limit` is an enum of two
// cases without a value: by 01 each check answers an enum, and `TicketRefusal.antt` gives the number for each case.
#[derive(Clone, Copy)]
pub enum Limit {
    Within,
    Above,
}
