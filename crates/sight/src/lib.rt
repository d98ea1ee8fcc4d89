// What is seen of a ticket before the clock moves: refusals 7 to 11, and what its kind asks for of sender, order and route. That bytes
// are below 256 comes from the slice itself, so that words tell codes apart; `see` asks nothing about it. Nothing reads a ticket without
// a book: `reading` of `ticket` is the definition of 7 to 10, and `see`, which is lent the rows of a book, equals it together with 11.
// With no rows at clock 0, as `cases` calls it, it is `reading` alone.
#![tactic(auto)]

mod subjects;
mod values;

ghost use Rattle.std.specs.Prelude.{◌≡◌, length};
ghost use Rattle.ticket.specs.TicketLayout.{ticket_length, sender_of, payee_of, payer_of, txid_field};
ghost use Rattle.index.specs.RowChains.{first_with};
ghost use Rattle.index.specs.LentRows.{BicRows, KeyRows};
ghost use Rattle.index.specs.Words.{bic_words, key_words};
ghost use Rattle.sight.specs.Sight.{sight_of};

use index::Index;
use ticket::kinds::Kind;
use ticket::{kinds, layout};

// A ticket that 7 to 11 do not refuse. What its kind does not ask for is nothing.
#[derive(Clone, Copy)]
pub struct Seen {
    pub kind: Kind,
    pub time: u32,
    pub amount: u64,
    pub sender: Option<usize>,
    pub order: Option<usize>,
    pub route: Option<usize>,
}

// Of a ticket of 108 bytes: what is seen of it, or the number of its refusal. Lent are the rows of participants, orders and route rows,
// any number of each.
pub fn see<const P: usize, const O: usize, const R: usize>(
    clock: u32,
    t: &[u8],
    bics: &Index<2, P>,
    keys: &Index<7, O>,
    routes: &Index<2, R>,
) -> Result<Seen, u8>
    requires { (length t.now ≡ ticket_length) × BicRows bics.now × KeyRows keys.now × BicRows routes.now }
    ensures { result ≡ sight_of clock t.now
        (first_with (bic_words (sender_of t.now)) bics.now)
        (first_with (key_words (payer_of t.now) (txid_field t.now)) keys.now)
        (first_with (bic_words (payee_of t.now)) routes.now) }
{
    let Some(kind) = kinds::kind_of(t[layout::KIND], t[layout::FLAG]) else {
        return Err(7);
    };
    let parties = subjects::parties_of(t, kind, bics, keys, routes)?;
    values::valued(clock, t, kind, parties)
}
