// The lines of a book: its clock, and all that it holds of each participant and each order.
ghost use Rattle.rules.specs.Sound.{Sound};

use super::print;
use rules::{Book, Order, Recall, Status};

// Behind a space, with another behind it.
fn print_word(rt: &impl Print, word: &[u8]) {
    print::put(rt, b" ");
    print::put(rt, word);
    print::put(rt, b" ")
}

// Behind a space, with a hyphen and a time behind it.
fn print_since(rt: &impl Print, word: &[u8], at: u32) {
    print::put(rt, b" ");
    print::put(rt, word);
    let _ = print!(rt; "-{at}");
}

fn print_settled(rt: &impl Print, word: &[u8], at: u32) {
    print_since(rt, word, at);
    print::put(rt, b" ")
}

fn print_returned(rt: &impl Print, at: u32, n: u64) {
    print_since(rt, b"Returned", at);
    let _ = print!(rt; "-{n} ");
}

fn print_status(rt: &impl Print, status: Status) {
    match status {
        Status::Waiting => print_word(rt, b"Waiting"),
        Status::Refused => print_word(rt, b"Refused"),
        Status::Expired => print_word(rt, b"Expired"),
        Status::Returned(at, n) => print_returned(rt, at, n),
        Status::Settled(Recall::None, at) => print_settled(rt, b"Settled-none", at),
        Status::Settled(Recall::Asked, at) => print_settled(rt, b"Settled-asked", at),
        Status::Settled(Recall::Declined, at) => print_settled(rt, b"Settled-declined", at),
    }
}

fn print_order(rt: &impl Print, n: usize, o: &Order) {
    print::print_numbers(
        rt,
        b"O",
        &[
            n as u64,
            o.payer as u64,
            o.payee as u64,
            o.amount,
            u64::from(o.time),
        ],
    );
    print_status(rt, o.status);
    print::put(rt, fields::unpadded(&o.txid));
    print::put(rt, b"\n")
}

pub fn print_book(rt: &impl Print, b: &Book)
    requires { Sound b.now }
{
    print::print_line(rt, b"K", &[u64::from(b.clock)]);
    for (p, c) in b.covers[..b.roster.size].iter().enumerate() {
        print::print_line(
            rt,
            b"C",
            &[p as u64, c.available, c.reserved, c.held, c.debit],
        )
    }
    for (n, o) in b.orders[..b.count].iter().enumerate() {
        print_order(rt, n, o)
    }
}
