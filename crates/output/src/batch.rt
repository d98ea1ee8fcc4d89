// Tickets taken by the core, as many as its buffers here have room for, and their lines. A day has at most 512 tickets. The buffers hold
// more reports than one ticket can have, so every batch takes at least one ticket (`takes_one`), and the pieces come to an end.
ghost use Rattle.std.specs.Prelude.{◌+◌, ◌^◌, ◌<◌, ◌≤◌, length};
ghost use Rattle.rules.specs.Sound.{Sound};
ghost use Rattle.output.specs.Batch.{most_text, Batched};

use rules::Book;

// 37 bytes for each of 1,536 lines
pub const MOST_TEXT: usize = 56832;

// The book afterwards, how many tickets were taken, and where their text ends.
#[derive(Clone, Copy)]
pub struct Printed {
    pub book: Book,
    pub taken: usize,
    pub length: usize,
}

// The buffers hold 512 answers and 1,024 reports, whose lines the text has room for. The tickets are numbered from k on.
pub fn take_batch(b: Book, tickets: &[u8], k: usize, text: &mut [u8]) -> Printed
    requires { Sound b × (k + 512 < 256 ^ 8) × (most_text ≤ length text.old) }
    ensures { Batched b tickets.now k text.old result.book result.taken text.new result.length }
{
    let mut answers = [0u8; 2048];
    let mut reports = [0u8; 12288];
    let batch = engine::run(b, tickets, &mut answers, &mut reports);
    Printed {
        book: batch.book,
        taken: batch.taken,
        length: lines::put_lines(k, batch.taken, &answers, &reports, text),
    }
}
