// Refusals 7 and 8, by what a ticket's kind names: nothing, a sender, an order that is held, a new order. A code that was found is well
// formed, and is not tested again. Codes are tested first, so that nothing of the other tests is held meanwhile. Each class has one
// function; that a kind of a class has the class's form is a law over the kinds (`cover-formed` and its like).
#![tactic(auto)]

pub mod amounts;
mod blanks;
mod known;

ghost use Rattle.std.specs.Prelude.{◌≡◌, length};
ghost use Rattle.ticket.specs.TicketLayout.{ticket_length, sender_of, payee_of, txid_field};
ghost use Rattle.ticket.specs.Form.{form_of};
ghost use Rattle.ticket.specs.Shape.{shape_of, account_of};
ghost use Rattle.shapes.specs.Subject.{TicketNaming, KnownBic, KnownKey};

use rules::terms::Subject;
use ticket::kinds::Kind;
use ticket::layout;
use ticket::shapes::Account;

// 7. It lists nothing.
pub fn nothing(t: &[u8], kind: Kind) -> Option<Kind>
    requires { TicketNaming Subject.Nothing kind t.now }
    ensures { result ≡ shape_of t.now }
{
    let spare = fields::zero_u16_at(t, layout::SPARE);
    (spare & blanks::from_amount(t)).then_some(kind)
}

// 7. It lists amount and sender.
pub fn cover(t: &[u8], kind: Kind, sender: Option<usize>) -> Option<Kind>
    requires { TicketNaming Subject.Sender kind t.now × KnownBic sender (sender_of t.now) }
    ensures { result ≡ shape_of t.now }
{
    let sender = known::sender(sender, t);
    let spare = fields::zero_u16_at(t, layout::SPARE);
    let rest = blanks::from_payee(t);
    (spare & sender & rest).then_some(kind)
}

// 7. It lists sender, payer and TxId, and a return its amount.
pub fn about(t: &[u8], kind: Kind, sender: Option<usize>, order: Option<usize>) -> Option<Kind>
    requires { TicketNaming Subject.HeldOrder kind t.now × KnownBic sender (sender_of t.now)
        × KnownKey order (payee_of t.now) (txid_field t.now) }
    ensures { result ≡ shape_of t.now }
{
    let sender = known::sender(sender, t);
    let key = known::key(order, t);
    let spare = fields::zero_u16_at(t, layout::SPARE);
    let amounts = amounts::amounts_of(kind);
    let amount = (amounts.most != 0) | fields::zero_u64_at(t, layout::AMOUNT);
    let rest = blanks::from_iban(t);
    (spare & amount & sender & key & rest).then_some(kind)
}

// 7. An order lists every field.
pub fn order(
    t: &[u8],
    sender: Option<usize>,
    order: Option<usize>,
    route: Option<usize>,
) -> Option<Kind>
    requires { TicketNaming Subject.NewOrder Kind.Order t.now × KnownBic sender (sender_of t.now)
        × KnownKey order (sender_of t.now) (txid_field t.now) × KnownBic route (payee_of t.now) }
    ensures { result ≡ shape_of t.now }
{
    let sender = known::sender(sender, t);
    let payee = known::payee(route, t);
    let txid = known::txid(order, t);
    let spare = fields::zero_u16_at(t, layout::SPARE);
    let last = t[layout::LAST] == 0;
    (spare & sender & payee & txid & last).then_some(Kind::Order)
}

// 8. An order's IBAN.
pub fn account(t: &[u8]) -> Account
    requires { length t.now ≡ ticket_length }
    ensures { result ≡ account_of (form_of Kind.Order) t.now }
{
    if iban::iban_ok(&t[layout::IBAN..layout::LAST]) {
        Account::Named
    } else {
        Account::Wrong
    }
}
