// A day's tickets through the core, for a program in another language that wants answers and reports as bytes, and for measuring.
#![tactic(auto)]

ghost use Rattle.std.specs.Prelude.{◌≡◌};
ghost use Rattle.foreign_steps.specs.Stepped.{lacks_room, Stepped};

use book::opening;
use report::answer;
use rules::constants;

// What is answered of a refused file, with its refusal added. A day has at most 512 tickets, so no count is as large. include/zolfigar.h
// has this number and the next.
const FILE_REFUSED: usize = 1024;

// What is answered where a buffer has no room for the first ticket.
const NO_ROOM: usize = 2048;

fn lacks_room(tickets: usize, answers: usize, reports: usize) -> bool
    ensures { result ≡ lacks_room tickets answers reports }
{
    (tickets != 0) & !((answer::LENGTH <= answers) & (constants::LEAST_BUFFER <= reports))
}

// How many tickets were taken, or why none. Their answers, 4 bytes each, and their reports, 12 bytes each, are in the buffers, one after
// the other.
#[unsafe(no_mangle)]
pub extern "C" fn zolfigar_steps(file: &[u8], answers: &mut [u8], reports: &mut [u8]) -> usize
    ensures { Stepped file.now answers.old reports.old result answers.new reports.new }
{
    let o = opening::open(file);
    if o.refusal != 0 {
        return FILE_REFUSED + o.refusal as usize;
    }
    if lacks_room(o.tickets, answers.len(), reports.len()) {
        return NO_ROOM;
    }
    engine::run(o.book, &file[o.first..], answers, reports).taken
}
