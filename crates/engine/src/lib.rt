// The core: a book is kept over many tickets and changed in place. A book has 256 orders; it is handed over once for a list of tickets
// and not once for each.
#![tactic(auto)]

mod directory;
mod kept;

ghost use Rattle.std.specs.Prelude.{◌≡◌};
ghost use Rattle.rules.specs.Sound.{Sound};
ghost use Rattle.course.specs.Running.{Ran};

use directory::Directory;
use index::Index;
use kept::KeptBook;
use moves::sums;
use rules::Book;

// The book afterwards, and how many tickets were taken.
#[derive(Clone, Copy)]
pub struct Batch {
    pub book: Book,
    pub taken: usize,
}

// Takes tickets of 108 bytes as long as there is a whole one, 4 bytes for its answer and 6,528 for its reports.
pub fn run(b: Book, tickets: &[u8], answers: &mut [u8], reports: &mut [u8]) -> Batch
    requires { Sound b }
    ensures { Ran b tickets.now answers.old reports.old result.book result.taken answers.new
        reports.new }
{
    // A local that is lent is cleared first: so of b only parts are lent, and the keys are filled inside `kept`, whose book has no orders
    // in use till then.
    let roster = b.roster;
    let mut directory = Directory {
        bics: Index::new(),
        routes: Index::new(),
    };
    directory::put_directory(&roster, &mut directory);
    let covers = b.covers;
    let total = sums::total_of(&covers[..roster.size]);
    let count = b.count;
    let mut kept = KeptBook {
        book: Book { count: 0, ..b },
        keys: Index::new(),
        total,
        next: 0,
    };
    let opened = &mut kept;
    index::put_keys(
        &roster.participants,
        &opened.book.orders,
        count,
        &mut opened.keys,
    );
    opened.book.count = count;
    let taken = kept.take(&directory, tickets, answers, reports);
    Batch {
        book: kept.book,
        taken,
    }
}
