// Ranges of a ticket that a kind does not list: whether all their bytes are zero. By words of eight bytes, of which two may overlap: all
// are the first, and that is zero. Each word is one load of the machine; held to zero one by one they would be loaded byte by byte.
ghost use Rattle.std.specs.Prelude.{◌≡◌, ◌+◌, ◌≤◌, length};
ghost use Rattle.fields.specs.Number.{part};
ghost use Rattle.fields.specs.Text.{blank};
ghost use Rattle.ticket.specs.TicketLayout.{ticket_length};
ghost use Rattle.shapes.specs.Blank.{four_are};

use index::words;
use ticket::layout;

// Four words one behind the other: 32 bytes.
fn four_are(t: &[u8], at: usize, w: u64) -> bool
    requires { at + 32 ≤ length t.now }
    ensures { result ≡ four_are w at t.now }
{
    (words::word_at(t, at) == w)
        & (words::word_at(t, at + 8) == w)
        & (words::word_at(t, at + 16) == w)
        & (words::word_at(t, at + 24) == w)
}

// Amount and all behind it: bytes 8 to 107.
pub fn from_amount(t: &[u8]) -> bool
    requires { length t.now ≡ ticket_length }
    ensures { result ≡ blank (part 100 8 t.now) }
{
    let first = words::word_at(t, layout::AMOUNT);
    four_are(t, 16, first) & four_are(t, 48, first) & four_are(t, 76, first) & (first == 0)
}

// Payee and all behind it: bytes 27 to 107.
pub fn from_payee(t: &[u8]) -> bool
    requires { length t.now ≡ ticket_length }
    ensures { result ≡ blank (part 81 27 t.now) }
{
    let first = words::word_at(t, layout::PAYEE);
    four_are(t, 35, first)
        & four_are(t, 67, first)
        & (words::word_at(t, 99) == first)
        & (t[layout::LAST] == 0)
        & (first == 0)
}

// IBAN and the byte behind it: bytes 73 to 107.
pub fn from_iban(t: &[u8]) -> bool
    requires { length t.now ≡ ticket_length }
    ensures { result ≡ blank (part 35 73 t.now) }
{
    let first = words::word_at(t, layout::IBAN);
    four_are(t, 76, first) & (first == 0)
}
