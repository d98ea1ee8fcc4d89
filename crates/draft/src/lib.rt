// An order ticket, or a refusal, of what the reader kept of a message's named elements: 02's slip 3. All checks come first, in the
// slip's order, and the ticket is written behind them.
#![tactic(auto)]

mod amount;
mod bic;
mod texts;
mod writing;

ghost use Rattle.std.specs.Prelude.{◌≡◌, List, ◌≤◌, length};
ghost use Rattle.ticket.specs.TicketLayout.{ticket_length};
ghost use Rattle.pacs.specs.Named.{Named};
ghost use Rattle.pacs.specs.Judged.{judged};
ghost use Rattle.pacs.specs.Answering.{refusal_of, left_in};
ghost use Rattle.pacs.specs.Wrongs.{refusal_in};
ghost use Rattle.pacs.specs.Kept.{Kept};

use pacs::notes::Notes;
use pacs::refusals::{Refused, Wrong};
use pacs::rows::{self, Row};
use texts::Texts;

// A row that is missing is so at the root's end.
pub fn judge(time: u32, end: usize, notes: &Notes<'_>, ticket: &mut [u8]) -> Result<(), Refused>
    requires { ticket_length ≤ length ticket.old }
    ensures { (seen : List Named) → Kept seen notes.now
        → (refusal_in result ≡ refusal_of (judged time seen)) × (ticket.new ≡ left_in ticket.old (judged time seen)) }
{
    let fault = notes.fault;
    if let Some(refused) = fault {
        return Err(refused);
    }
    if notes.due < rows::COUNT {
        return Err(Wrong::Missing(Row { number: notes.due }).at(end));
    }
    let found = Texts {
        amount: notes.texts[rows::AMOUNT],
        sender: notes.texts[rows::SENDER],
        payee: notes.texts[rows::PAYEE],
        txid: notes.texts[rows::TXID],
        iban: notes.texts[rows::IBAN],
    };
    texts::judge_texts(time, notes.euro, &found, ticket)
}
