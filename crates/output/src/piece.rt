// A day as far as it is printed, and its next piece of text. All lines of a day need not fit a buffer. Each piece is an equation
// (`PieceOf`), and all together are `output` of the rules (`day-printed`).
ghost use Rattle.std.specs.Prelude.{◌≡◌, ◌<◌, ◌≤◌, false, length, ◌≢◌};
ghost use Rattle.output.specs.Batch.{most_text};
ghost use Rattle.output.specs.Pieces.{begun, Under, PieceOf, NextPiece};

use super::batch;
use book::opening;
use rules::Book;
use ticket::layout;

// The book after the tickets taken so far; how many tickets the file has and where the first lies, both 0 if it is refused.
#[derive(Clone, Copy)]
pub struct Day {
    pub refusal: u8,
    pub book: Book,
    pub tickets: usize,
    pub first: usize,
    pub taken: usize,
    pub ended: bool,
}

impl Day {
    pub fn begin(file: &[u8]) -> Day
        ensures { (result ≡ begun file.now) × Under file.now result }
    {
        let o = opening::open(file);
        Day {
            refusal: o.refusal,
            book: o.book,
            tickets: o.tickets,
            first: o.first,
            taken: 0,
            ended: false,
        }
    }

    // The lines of the next batch of tickets.
    fn tickets_piece(&mut self, file: &[u8], text: &mut [u8]) -> usize
        requires { Under file.now self.old × (self.old.ended ≡ false) × (self.old.refusal ≡ 0)
            × (self.old.taken < self.old.tickets) × (most_text ≤ length text.old) }
        ensures { PieceOf file.now self.old text.old result self.new text.new }
    {
        let at = self.first + layout::LENGTH * self.taken;
        let p = batch::take_batch(self.book, &file[at..], self.taken, text);
        self.book = p.book;
        self.taken += p.taken;
        p.length
    }

    // The lines of the participants, when all tickets are taken.
    fn covers_piece(&mut self, file: &[u8], text: &mut [u8]) -> usize
        requires { Under file.now self.old × (self.old.ended ≡ false) × (self.old.refusal ≡ 0)
            × (self.old.tickets ≤ self.old.taken) × (most_text ≤ length text.old) }
        ensures { PieceOf file.now self.old text.old result self.new text.new }
    {
        self.ended = true;
        lines::put_covers(&self.book.covers[..self.book.roster.size], text)
    }

    // The one line of a refused day file.
    fn refusal_piece(&mut self, file: &[u8], text: &mut [u8]) -> usize
        requires { Under file.now self.old × (self.old.ended ≡ false) × (self.old.refusal ≢ 0)
            × (most_text ≤ length text.old) }
        ensures { PieceOf file.now self.old text.old result self.new text.new }
    {
        self.ended = true;
        lines::put_refusal(self.refusal, text)
    }

    // The next piece, at the start of the text, and how long it is. None where the day has ended: then all stays as it was.
    pub fn next_piece(&mut self, file: &[u8], text: &mut [u8]) -> Option<usize>
        requires { Under file.now self.old × (most_text ≤ length text.old) }
        ensures { NextPiece file.now self.old text.old result self.new text.new }
    {
        if self.ended {
            return None;
        }
        if self.refusal != 0 {
            return Some(self.refusal_piece(file, text));
        }
        if self.taken < self.tickets {
            return Some(self.tickets_piece(file, text));
        }
        Some(self.covers_piece(file, text))
    }
}
