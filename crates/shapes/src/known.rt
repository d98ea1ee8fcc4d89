// Codes of a ticket that a search may have found. One that was found is well formed: only what was not found is tested. Sender and payee
// each have a function: so payee's, called at one place, is put there; sender's, called at three, stays a call.
ghost use Rattle.std.specs.Prelude.{◌≡◌, ◌&&◌, length};
ghost use Rattle.codes.specs.Bic.{is_bic};
ghost use Rattle.codes.specs.Txid.{is_txid};
ghost use Rattle.ticket.specs.TicketLayout.{ticket_length, sender_of, payee_of, txid_field, txid_of};
ghost use Rattle.shapes.specs.Subject.{KnownBic, KnownKey};

use ticket::layout;

pub fn sender(found: Option<usize>, t: &[u8]) -> bool
    requires { (length t.now ≡ ticket_length) × KnownBic found (sender_of t.now) }
    ensures { result ≡ is_bic (sender_of t.now) }
{
    found.is_some() || codes::zolfigar_bic_ok(&t[layout::SENDER..layout::PAYEE]) == 1
}

pub fn payee(found: Option<usize>, t: &[u8]) -> bool
    requires { (length t.now ≡ ticket_length) × KnownBic found (payee_of t.now) }
    ensures { result ≡ is_bic (payee_of t.now) }
{
    found.is_some() || codes::zolfigar_bic_ok(&t[layout::PAYEE..layout::TXID]) == 1
}

// An order's TxId, where the order is searched for by its sender.
pub fn txid(found: Option<usize>, t: &[u8]) -> bool
    requires { (length t.now ≡ ticket_length) × KnownKey found (sender_of t.now) (txid_field t.now) }
    ensures { result ≡ is_txid (txid_of t.now) }
{
    found.is_some() || codes::txid_ok(&t[layout::TXID..layout::IBAN])
}

// The payer and the TxId that kinds 4 to 8 name.
pub fn key(found: Option<usize>, t: &[u8]) -> bool
    requires { (length t.now ≡ ticket_length) × KnownKey found (payee_of t.now) (txid_field t.now) }
    ensures { result ≡ (is_bic (payee_of t.now) && is_txid (txid_of t.now)) }
{
    if found.is_some() {
        return true;
    }
    let payer = codes::zolfigar_bic_ok(&t[layout::PAYER..layout::TXID]) == 1;
    payer & codes::txid_ok(&t[layout::TXID..layout::IBAN])
}
