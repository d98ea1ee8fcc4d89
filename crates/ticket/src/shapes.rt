// Answer of refusal 8: whether an order's IBAN is one; that of refusal 7 is the kind, or None. `Account` is an enum of two cases without a
// value: by 01 each check answers an enum, and `TicketRefusal.antt` gives the number for each case.
#[derive(Clone, Copy)]
pub enum Account {
    Named,
    Wrong,
}
