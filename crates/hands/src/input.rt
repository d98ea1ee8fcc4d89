// One input: a ticket and a report buffer, handed in, and its lines.
ghost use Rattle.std.specs.Prelude.{ℕ, ◌*◌, ◌≤◌, ◌<◌, ◌≡◌, ◌==◌, not, length, get_or, position, unwrap_or, IfOk};
ghost use Rattle.rules.specs.Step.{outcome};
ghost use Rattle.rules.specs.Sound.{Sound};

use super::print;
use book::handing;
use book::handing::Handed;
use rules::Book;
use std::io;
use std::io::Read;

// What a ticket and a report buffer have at most.
const MOST: usize = 8192;

// Where the first byte stands that isn't the fill.
fn first_other(bytes: &[u8], fill: u8) -> Option<usize>
    ensures { result ≡ position (λ b. not (b == fill)) bytes.now }
{
    bytes.iter().position(|b| *b != fill)
}

// How many bytes are the fill, before the first that isn't.
fn kept(bytes: &[u8], fill: u8) -> usize
    ensures first { result ≡ unwrap_or (position (λ b. not (b == fill)) bytes.now) (length bytes.now) }
    ensures within { result ≤ length bytes.now }
    ensures before { (k : ℕ) → k < result → get_or bytes.now k 0 ≡ fill }
    ensures other { result < length bytes.now → get_or bytes.now result 0 ≡ fill → ⊥ }
{
    first_other(bytes, fill).unwrap_or(bytes.len())
}

// Up to where the bytes of the buffer are the fill, from a place on.
fn kept_to(buffer: &[u8], from: usize, fill: u8) -> usize
    requires { from ≤ length buffer.now }
    ensures within { result ≤ length buffer.now }
    ensures kept { (k : ℕ) → k < result → from ≤ k → get_or buffer.now k 0 ≡ fill }
    ensures changed { result < length buffer.now → get_or buffer.now result 0 ≡ fill → ⊥ }
{
    from + kept(&buffer[from..], fill)
}

// The lines of an input: its answer, its reports, and what the bytes behind them are.
fn print_handed(rt: &impl Print, number: u64, h: &Handed, buffer: &[u8], fill: u8)
    requires { 12 * h.now.reports ≤ length buffer.now }
{
    print::print_line(
        rt,
        b"T",
        &[
            number,
            u64::from(h.refusal),
            u64::from(h.reports),
            u64::from(h.rows),
        ],
    );
    let n = h.reports as usize;
    for i in 0..n {
        let r = report::report_at(buffer, i);
        print::print_line(
            rt,
            b"R",
            &[
                u64::from(r.to),
                u64::from(r.code),
                u64::from(r.order),
                r.amount,
            ],
        )
    }
    let kept = kept_to(buffer, report::LENGTH * n, fill);
    print::print_line(rt, b"B", &[buffer.len() as u64, kept as u64])
}

// The buffer has the fill alone.
fn hand(rt: &impl Print, b: &mut Book, number: u64, ticket: &[u8], buffer: &mut [u8], fill: u8)
    requires { Sound b.old }
    ensures { (b.new ≡ (outcome b.old ticket.now buffer.old).book) × Sound b.new }
{
    let handed = handing::hand_in(*b, ticket, buffer);
    *b = handed.book;
    print_handed(rt, number, &handed, buffer, fill)
}

// What stands before a ticket: the lengths of the ticket and the buffer, and the fill.
#[derive(Clone, Copy)]
struct Head {
    ticket: usize,
    buffer: usize,
    fill: u8,
}

impl Head {
    // An error says that it isn't there whole, or that a length is greater.
    fn read(input: &mut impl Read) -> io::Result<Head>
        ensures { IfOk result (λ h. (h.ticket ≤ 8192) × (h.buffer ≤ 8192)) }
    {
        let mut bytes = [0u8; 9];
        input.read_exact(&mut bytes)?;
        let ticket = fields::u32_at(&bytes, 0) as usize;
        let buffer = fields::u32_at(&bytes, 4) as usize;
        if ticket > MOST || buffer > MOST {
            return Err(io::ErrorKind::InvalidData.into());
        }
        Ok(Head {
            ticket,
            buffer,
            fill: bytes[8],
        })
    }
}

// Hands the next input in. An error says that it isn't there whole, or that a length is greater: then the book stays.
pub fn hand_next(
    rt: &impl Print,
    input: &mut impl Read,
    b: &mut Book,
    number: u64,
) -> io::Result<()>
    requires { Sound b.old }
    ensures { Sound b.new }
{
    let head = Head::read(input)?;
    let mut ticket = [0u8; MOST];
    let ticket = &mut ticket[..head.ticket];
    input.read_exact(ticket)?;
    let mut buffer = [head.fill; MOST];
    hand(rt, b, number, ticket, &mut buffer[..head.buffer], head.fill);
    Ok(())
}
