// The five texts of a message judged, and the ticket written where they are right.
ghost use Rattle.std.specs.Prelude.{◌≤◌, length};
ghost use Rattle.ticket.specs.TicketLayout.{ticket_length};
ghost use Rattle.pacs.specs.Wrongs.{refusal_in};
ghost use Rattle.draft.specs.Drafting.{judged_on, JudgedTo};

use super::{amount, bic, writing};
use pacs::notes::Text;
use pacs::refusals::{Refused, Wrong};

#[derive(Clone, Copy)]
pub struct Texts<'a> {
    pub amount: Text<'a>,
    pub sender: Text<'a>,
    pub payee: Text<'a>,
    pub txid: Text<'a>,
    pub iban: Text<'a>,
}

// Euro is whether the amount's attributes are right.
pub fn judge_texts(
    time: u32,
    euro: bool,
    texts: &Texts<'_>,
    ticket: &mut [u8],
) -> Result<(), Refused>
    requires { ticket_length ≤ length ticket.old }
    ensures { JudgedTo
        (judged_on
        time
        euro
        texts.now.amount.bytes.now
        texts.now.sender.bytes.now
        texts.now.payee.bytes.now
        texts.now.txid.bytes.now
        texts.now.iban.bytes.now)
        ticket.old
        ticket.new
        (refusal_in result) }
{
    if !euro {
        return Err(Wrong::Attributes.at(texts.amount.place));
    }
    let cents = amount::cents_of(texts.amount)?;
    let payer = bic::bic_of(texts.sender, Wrong::Sender)?;
    let paid = bic::bic_of(texts.payee, Wrong::Payee)?;
    let txid = texts.txid.bytes;
    if codes::zolfigar_txid_ok(txid) == 0 {
        return Err(Wrong::Txid.at(texts.txid.place));
    }
    let iban = texts.iban.bytes;
    if codes::zolfigar_iban_ok(iban) == 0 {
        return Err(Wrong::Iban.at(texts.iban.place));
    }
    writing::put_ticket(ticket, time, cents, &payer, &paid, txid, iban);
    Ok(())
}
