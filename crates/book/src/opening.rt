// Opening a book from a day file of any bytes.
ghost use Rattle.std.specs.Prelude.{◌≡◌};
ghost use Rattle.rules.specs.Book.{fresh_book};
ghost use Rattle.book.specs.Opening.{Opens};

use dayfile::roster::Roster;
use rules::{Book, Cover, Order, Status};

fn fresh(roster: Roster) -> Book
    ensures { result ≡ fresh_book roster }
{
    let cover = Cover {
        available: 0,
        reserved: 0,
        held: 0,
        debit: 0,
    };
    let order = Order {
        txid: [0u8; 35],
        payer: 0,
        payee: 0,
        amount: 0,
        time: 0,
        status: Status::Waiting,
    };
    Book {
        clock: 0,
        covers: [cover; 32],
        orders: [order; 256],
        count: 0,
        roster,
    }
}

// The refusal, 0 if none, and the fresh book, which has no participants if the file is refused; how many tickets the file has and where
// the first lies. It is no Result, since a refused file opens a book as well (`Opens`).
#[derive(Clone, Copy)]
pub struct Opened {
    pub refusal: u8,
    pub book: Book,
    pub tickets: usize,
    pub first: usize,
}

pub fn open(file: &[u8]) -> Opened
    ensures { Opens file.now result }
{
    let d = dayread::read_day_file(file);
    Opened {
        refusal: d.refusal,
        book: fresh(d.roster),
        tickets: d.tickets,
        first: d.first,
    }
}
