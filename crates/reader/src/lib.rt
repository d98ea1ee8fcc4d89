// The reader of one order as pacs.008 text: 02's slip 3. A text is read from the left to its end before anything is judged of it; the
// ticket that is lent is written only where all of it is right.
#![tactic(auto)]

pub mod endings;
pub mod meeting;
pub mod names;
pub mod walking;

ghost use Rattle.std.specs.Prelude.{◌≡◌, ◌≤◌, length};
ghost use Rattle.ticket.specs.TicketLayout.{ticket_length};
ghost use Rattle.pacs.specs.Walk.{found};
ghost use Rattle.pacs.specs.Answering.{refusal_of, left_in, verdict_of, Ordered};
ghost use Rattle.pacs.specs.Wrongs.{refusal_in};

use pacs::notes::Notes;
use pacs::refusals::{Refused, Wrong};
use scan::Space;

const LONGEST: usize = 65_520;

// A text at a time: where nothing is wrong with it, the ticket is written.
pub fn read(text: &[u8], time: u32, ticket: &mut [u8]) -> Result<(), Refused>
    requires { ticket_length ≤ length ticket.old }
    ensures { (refusal_in result ≡ refusal_of (verdict_of time (found text.now)))
        × (ticket.new ≡ left_in ticket.old (verdict_of time (found text.now))) }
{
    if LONGEST < text.len() {
        return Err(Wrong::TooLong.at(LONGEST));
    }
    let prolog = match prolog::prolog_end(text) {
        Ok(end) => end,
        Err(place) => return Err(Wrong::Declaration.at(place)),
    };
    let start = scan::run_end(text, prolog, &Space);
    let mut notes = Notes::new();
    let end = walking::walk(text, start, &mut notes)?;
    let behind = scan::run_end(text, end, &Space);
    if behind != text.len() {
        return Err(Wrong::BehindRoot.at(behind));
    }
    draft::judge(time, end, &notes, ticket)
}

// For C: the refusal, 0 where there is none; 255 where the ticket has less than 108 bytes. A refused text leaves the ticket as it was; of a
// longer one the first 108 bytes are written.
#[unsafe(no_mangle)]
pub extern "C" fn zolfigar_pacs008(text: &[u8], time: u32, ticket: &mut [u8]) -> u8
    ensures { Ordered text.now time ticket.old ticket.new result }
{
    if ticket.len() < 108 {
        return 255;
    }
    match read(text, time, ticket) {
        Ok(()) => 0,
        Err(refused) => refused.wrong.refusal(),
    }
}
