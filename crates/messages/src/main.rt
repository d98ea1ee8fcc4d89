// The reader over many messages. Standard input has for each message the lengths of its name and of its text and its time, each in 4 bytes,
// the highest first, the lengths at most 256 and 65,521, then the name and the text. On standard output stand a line with the name, and
//
//     M 0 TICKET              of an accepted text: the ticket's 108 bytes, each as two hexadecimal digits
//     M refusal place what    of a refused one: at which byte it is wrong, and what is wrong there
//
// It ends where the input does, at a greater length, at a message that is cut off, and where nothing can be written.
//
// What is wrong, by number: 1 the text is too long, 2 the declaration, 3 the root is due, 4 a tag is due, 5 what begins with < is no tag, 6 a
// tag isn't formed as one, 7 an attribute's name stands twice, 8 the end tag of the open element is due, 9 elements nest too deep, 10
// something stands behind the root; 14 the amount's attributes, 15 the amount, 16 the sender, 17 the payee, 18 the TxId, 19 the IBAN; and for
// the named element of a row, counted from 0 (`crates/pacs/specs/Named.antt`): 32 and the row where it is missing, 48 and the row where it
// holds an element, 64 and the row where it stands again.
#![tactic(auto)]

ghost use Rattle.std.specs.Prelude.{◌≤◌, length};

use pacs::refusals::Refused;
use std::io;
use std::io::Read;

// The longest text, and one byte more: a longer one is refused like it.
const MOST_READ: usize = 65_521;

const TICKET: usize = 108;

// The next n bytes of the input to the start of the buffer, and whether there were as many.
fn fill(input: &mut impl Read, buffer: &mut [u8], n: usize) -> bool
    requires { n ≤ length buffer.old }
{
    input.read_exact(&mut buffer[0..n]).is_ok()
}

fn print(rt: &impl Print, s: &[u8]) -> io::Result<()> {
    rt.write_all(s)
}

// The last hexadecimal digit of a number.
fn digit(n: u8) -> u8 {
    let d = n % 16;
    if d < 10 {
        return b'0' + d;
    }
    b'a' + (d - 10)
}

fn print_ticket(rt: &impl Print, ticket: &[u8; TICKET]) -> io::Result<()> {
    let mut digits = [0u8; 2 * TICKET];
    for (i, &b) in ticket.iter().enumerate() {
        digits[2 * i] = digit(b / 16);
        digits[2 * i + 1] = digit(b);
    }
    print(rt, b" ")?;
    print(rt, &digits)
}

fn print_answer(rt: &impl Print, text: &[u8], time: u32) -> io::Result<()> {
    let mut ticket = [0u8; TICKET];
    match reader::read(text, time, &mut ticket) {
        Ok(()) => {
            print!(rt; "M 0")?;
            print_ticket(rt, &ticket)?;
        }
        Err(Refused { wrong, place }) => {
            print!(rt; "M {} {place} {}", wrong.refusal(), wrong.number())?;
        }
    }
    print(rt, b"\n")
}

// One message, and whether there may be another.
fn print_next(rt: &impl Print, input: &mut impl Read) -> io::Result<bool> {
    let mut head = [0u8; 12];
    if !fill(input, &mut head, 12) {
        return Ok(false);
    }
    let named = fields::u32_at(&head, 0) as usize;
    let n = fields::u32_at(&head, 4) as usize;
    let time = fields::u32_at(&head, 8);
    if named > 256 {
        return Ok(false);
    }
    if n > MOST_READ {
        return Ok(false);
    }
    let mut name = [0u8; 256];
    if !fill(input, &mut name, named) {
        return Ok(false);
    }
    let mut text = [0u8; MOST_READ];
    if !fill(input, &mut text, n) {
        return Ok(false);
    }
    print(rt, b"# ")?;
    print(rt, &name[0..named])?;
    print(rt, b"\n")?;
    print_answer(rt, &text[0..n], time)?;
    Ok(true)
}

// A proved loop has to end, and nothing says that the input does: so it takes at most a number of turns that no run uses up.
// It ends at the first write that fails, and nothing tells that.
fn main(rt: HostRuntime) {
    let mut input = rt.stdin();
    for _ in 0..u64::MAX {
        if !print_next(&rt, &mut input).unwrap_or(false) {
            break;
        }
    }
}
