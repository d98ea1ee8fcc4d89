// Handing in one ticket of any bytes and length, with a report buffer of any bytes and length lent for it.
ghost use Rattle.std.specs.Prelude.{◌≡◌, if◌then◌else◌, nat_lt};
ghost use Rattle.rules.specs.Refusal.{least_buffer};
ghost use Rattle.rules.specs.Sound.{Sound};
ghost use Rattle.book.specs.Handing.{untouched_by, Hands};

use report::answer;
use rules::refusal::Buffer;
use rules::{Book, constants};
use ticket::layout;

// The answer, and the book afterwards. It is no Result, since a refused ticket leaves a book as well (`Hands`).
#[derive(Clone, Copy)]
pub struct Handed {
    pub refusal: u8,
    pub reports: u16,
    pub rows: u8,
    pub book: Book,
}

// Refusal 6, by how many bytes a report buffer has.
fn buffer_of(count: usize) -> Buffer
    ensures { result ≡ (if nat_lt count least_buffer then Buffer.Short else Buffer.Enough) }
{
    if count < constants::LEAST_BUFFER {
        Buffer::Short
    } else {
        Buffer::Enough
    }
}

// Turned back by 6 or 7: nothing changes.
fn turned_back(b: Book, n: u8) -> Handed
    ensures { result ≡ untouched_by n b }
{
    Handed {
        refusal: n,
        reports: 0,
        rows: 0,
        book: b,
    }
}

pub fn hand_in(b: Book, ticket: &[u8], buffer: &mut [u8]) -> Handed
    requires { Sound b }
    ensures { Hands b ticket.now buffer.old result buffer.new }
{
    let Buffer::Enough = buffer_of(buffer.len()) else {
        return turned_back(b, 6);
    };
    if ticket.len() != layout::LENGTH {
        return turned_back(b, 7);
    }
    let mut answers = [0u8; 4];
    let batch = engine::run(b, ticket, &mut answers, buffer);
    let a = answer::answer_at(&answers, 0);
    Handed {
        refusal: a.refusal,
        reports: a.reports,
        rows: a.rows,
        book: batch.book,
    }
}
