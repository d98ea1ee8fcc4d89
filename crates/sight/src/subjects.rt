// Refusals 7 and 8 by what a ticket's kind names, and what the kind asks for. What it does not ask for, the other findings, may be
// anything. A class promises `sight_of` whatever that is, and at any clock; so `parties_of` hands its own findings in, and searches only
// for what the class asks for. A refusal is the same whether searches come before the tests of form or behind them, since searching
// changes nothing.
ghost use Rattle.std.specs.Prelude.{◌≡◌, ℕ, length, Option, Some};
ghost use Rattle.ticket.specs.TicketLayout.{ticket_length, kind_byte, flag_byte, sender_of, payee_of, payer_of, txid_field};
ghost use Rattle.ticket.specs.Kind.{kinded};
ghost use Rattle.rules.specs.Terms.{terms_of};
ghost use Rattle.index.specs.RowChains.{first_with};
ghost use Rattle.index.specs.LentRows.{BicRows, KeyRows};
ghost use Rattle.index.specs.Words.{bic_words, key_words};
ghost use Rattle.sight.specs.Sight.{sight_of};
ghost use Rattle.sight.specs.Value.{formed_sight};
ghost use Rattle.shapes.specs.Subject.{TicketNaming, KnownBic, KnownKey};

use index::{Index, words};
use rules::terms::Subject;
use ticket::kinds::Kind;
use ticket::layout;
use ticket::shapes::Account;

// Sender, order and route of a ticket that 7 and 8 do not refuse.
#[derive(Clone, Copy)]
pub struct Parties {
    pub sender: Option<usize>,
    pub order: Option<usize>,
    pub route: Option<usize>,
}

const NOBODY: Parties = Parties {
    sender: None,
    order: None,
    route: None,
};

fn subject_of(kind: Kind) -> Subject
    ensures { result ≡ (terms_of kind).subject }
{
    match kind {
        Kind::CoverIn | Kind::CoverOut | Kind::Confirm => Subject::Sender,
        Kind::Order => Subject::NewOrder,
        Kind::Cut | Kind::Tick => Subject::Nothing,
        Kind::Yes | Kind::No | Kind::Recall | Kind::Return | Kind::Decline | Kind::Inquiry =>
            Subject::HeldOrder,
    }
}

// Kinds 9 and 11.
fn nothing(t: &[u8], kind: Kind) -> Result<Parties, u8>
    requires { TicketNaming Subject.Nothing kind t.now }
    ensures { (clock : ℕ) (sender order route : Option ℕ)
        → formed_sight clock t.now kind result ≡ sight_of clock t.now sender order route }
{
    let Some(_) = shapes::nothing(t, kind) else {
        return Err(7);
    };
    Ok(NOBODY)
}

// Kinds 1, 2 and 10.
fn cover(t: &[u8], kind: Kind, sender: Option<usize>) -> Result<Parties, u8>
    requires { TicketNaming Subject.Sender kind t.now × KnownBic sender (sender_of t.now) }
    ensures { (clock : ℕ) (order route : Option ℕ)
        → formed_sight clock t.now kind result ≡ sight_of clock t.now sender order route }
{
    let Some(_) = shapes::cover(t, kind, sender) else {
        return Err(7);
    };
    Ok(Parties { sender, ..NOBODY })
}

// Kinds 4 to 8.
fn about(t: &[u8], kind: Kind, sender: Option<usize>, order: Option<usize>) -> Result<Parties, u8>
    requires { TicketNaming Subject.HeldOrder kind t.now × KnownBic sender (sender_of t.now)
        × KnownKey order (payee_of t.now) (txid_field t.now) }
    ensures { (clock : ℕ) (route : Option ℕ)
        → formed_sight clock t.now kind result ≡ sight_of clock t.now sender order route }
{
    let Some(_) = shapes::about(t, kind, sender, order) else {
        return Err(7);
    };
    Ok(Parties {
        sender,
        order,
        ..NOBODY
    })
}

// Kind 3.
fn order(
    t: &[u8],
    sender: Option<usize>,
    order: Option<usize>,
    route: Option<usize>,
) -> Result<Parties, u8>
    requires { TicketNaming Subject.NewOrder Kind.Order t.now × KnownBic sender (sender_of t.now)
        × KnownKey order (sender_of t.now) (txid_field t.now) × KnownBic route (payee_of t.now) }
    ensures { (clock : ℕ)
        → formed_sight clock t.now Kind.Order result ≡ sight_of clock t.now sender order route }
{
    let Some(_) = shapes::order(t, sender, order, route) else {
        return Err(7);
    };
    let Account::Named = shapes::account(t) else {
        return Err(8);
    };
    Ok(Parties {
        sender,
        order,
        route,
    })
}

// Of a ticket of a kind. What the kind asks for is searched for before any code's form is looked at: a code that is found is well formed.
pub fn parties_of<const P: usize, const O: usize, const R: usize>(
    t: &[u8],
    kind: Kind,
    bics: &Index<2, P>,
    keys: &Index<7, O>,
    routes: &Index<2, R>,
) -> Result<Parties, u8>
    requires { (length t.now ≡ ticket_length) × (kinded (kind_byte t.now) (flag_byte t.now) ≡ Some kind)
        × BicRows bics.now × KeyRows keys.now × BicRows routes.now }
    ensures { (clock : ℕ)
        → formed_sight clock t.now kind result
        ≡ sight_of clock t.now
        (first_with (bic_words (sender_of t.now)) bics.now)
        (first_with (key_words (payer_of t.now) (txid_field t.now)) keys.now)
        (first_with (bic_words (payee_of t.now)) routes.now) }
{
    let sender_bic = &t[layout::SENDER..layout::PAYEE];
    let txid = &t[layout::TXID..layout::IBAN];
    match subject_of(kind) {
        Subject::Nothing => nothing(t, kind),
        Subject::Sender => {
            let sender = bics.find(&words::bic_words(sender_bic));
            cover(t, kind, sender)
        }
        Subject::NewOrder => {
            let sender = bics.find(&words::bic_words(sender_bic));
            let found = keys.find(&words::key_words(sender_bic, txid));
            let route = routes.find(&words::bic_words(&t[layout::PAYEE..layout::TXID]));
            order(t, sender, found, route)
        }
        Subject::HeldOrder => {
            let sender = bics.find(&words::bic_words(sender_bic));
            let found = keys.find(&words::key_words(&t[layout::PAYER..layout::TXID], txid));
            about(t, kind, sender, found)
        }
    }
}
