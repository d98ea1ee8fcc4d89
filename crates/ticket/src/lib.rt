// A ticket of 108 bytes: where its fields lie, its kind, its TxId, and the answers of refusals 7 to 10. What these look at is in specs/;
// the code that asks it is in `shapes` and `sight`. What is read of a ticket is numbers only (`Fields`): sender, payee or payer, and TxId
// are parts of the caller's slice, since an enum can't hold an array, and nothing is copied.
#![tactic(auto)]

pub mod amounts;
pub mod forms;
pub mod kinds;
pub mod layout;
pub mod shapes;

ghost use Rattle.std.specs.Prelude.{◌≡◌};
ghost use Rattle.ticket.specs.TicketReading.{txid_part};

use kinds::Kind;

// What the book goes by. Sender, payee or payer, and TxId are parts of the ticket's own bytes.
#[derive(Clone, Copy)]
pub struct Fields {
    pub kind: Kind,
    pub time: u32,
    pub amount: u64,
}

// The TxId without its padding, as the ticket's own bytes; the empty part where it is malformed or the ticket isn't 108 bytes.
#[tactic(auto, unfolding(crate::specs::TicketReading::txid_part))]
pub fn txid(t: &[u8]) -> &[u8]
    ensures { result.now ≡ txid_part t.now }
{
    if t.len() != layout::LENGTH {
        return &t[0..0];
    }
    let field = &t[layout::TXID..layout::IBAN];
    if codes::txid_ok(field) {
        fields::unpadded(field)
    } else {
        &t[0..0]
    }
}
