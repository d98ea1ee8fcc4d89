// An order ticket written into a buffer, field by field from its first byte to its last.
ghost use Rattle.std.specs.Prelude.{◌≡◌, ◌++◌, ◌+◌, ◌≤◌, length, drop};
ghost use Rattle.std.proofs.lemmas.List.Edits.{sets};
ghost use Rattle.fields.specs.Text.{padded};
ghost use Rattle.ticket.specs.TicketLayout.{ticket_length};
ghost use Rattle.ticket.specs.TicketWriting.{order_ticket};

// Byte by byte: copied as a whole, the reader for C would want memmove.
fn put_bytes(ticket: &mut [u8], at: usize, s: &[u8])
    requires { at + length s.now ≤ length ticket.old }
    ensures { ticket.new ≡ sets ticket.old at s.now }
{
    for i in 0..s.len() {
        ticket[at + i] = s[i];
    }
}

fn put_padded(ticket: &mut [u8], at: usize, width: usize, s: &[u8])
    requires { (length s.now ≤ width) × (at + width ≤ length ticket.old) }
    ensures { ticket.new ≡ sets ticket.old at (padded width s.now) }
{
    put_bytes(ticket, at, s);
    let end = at + width;
    ticket[at + s.len()..end].fill(0);
}

// The first eight bytes are one number: kind 3, flag 0, two zeroes, and the time.
pub fn put_ticket(
    ticket: &mut [u8],
    time: u32,
    amount: u64,
    sender: &[u8; 11],
    payee: &[u8; 11],
    txid: &[u8],
    iban: &[u8],
)
    requires { (ticket_length ≤ length ticket.old) × (length txid.now ≤ 35) × (length iban.now ≤ 34) }
    ensures { ticket.new
        ≡ order_ticket time sender.now payee.now amount txid.now iban.now
        ++ drop ticket_length ticket.old }
{
    fields::put_u64(ticket, 0, 216172782113783808 + time as u64);
    fields::put_u64(ticket, 8, amount);
    put_bytes(ticket, 16, sender);
    put_bytes(ticket, 27, payee);
    put_padded(ticket, 38, 35, txid);
    put_padded(ticket, 73, 34, iban);
    ticket[107] = 0;
}
