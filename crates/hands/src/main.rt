// Hands tickets in one after the other, each with a report buffer of its own, and prints what came of each and the book at the end.
//
// Standard input has cases. A case has the lengths of its name, at most 256, and of its day file, at most 57,101, and how many
// inputs it has, each in 4 bytes, the highest first; then the name, the day file and the inputs. An input has the lengths of its
// ticket and of its buffer, each in 4 bytes and at most 8,192, the byte that the buffer is filled with, and the ticket. The tickets
// that the day file itself has are not handed in. It ends where the input does, at a greater length, and where a case's name can't be
// written; of a case that is cut off it prints what is there.
//
// On standard output stand for each case, with numbers in decimal:
//
//     # NAME
//     F refusal                                   of the day file, 0 if none
//     T number refusal reports rows               of each input
//     R to code order amount                      of each of its reports, read from the buffer
//     B length kept                               of its buffer: its length, and up to where the bytes behind the reports are the
//                                                 fill: the length again if all are, else the place of the first that isn't
//     K clock                                     of the book at the end
//     C number available reserved held debit      of each participant
//     O number payer payee amount time status TxId    of each order; hyphens join the word of a settled one, its recall mark and the
//                                                 time of its settlement; of a returned one that time and the returned amount
//
// `stdin` is made from the text beside it: tools/day pack --inputs crates/hands/inputs.txt -o crates/hands/stdin
#![tactic(auto)]

mod input;
mod print;
mod state;

ghost use Rattle.rules.specs.Sound.{Sound};

use book::opening;
use dayfile::limits;
use rules::Book;
use std::io;
use std::io::Read;

const MOST_NAME: usize = 256;

// The book after a case's inputs, up to the first that isn't there.
fn hand_all(rt: &impl Print, input: &mut impl Read, b: &mut Book, inputs: u32) -> io::Result<()>
    requires { Sound b.old }
    ensures { Sound b.new }
{
    for number in 0..inputs {
        input::hand_next(rt, input, b, u64::from(number))?;
    }
    Ok(())
}

// The lines of a case. What can't be written is left out. The error is that its name is, or that not all its inputs are there.
fn print_case(
    rt: &impl Print,
    input: &mut impl Read,
    name: &[u8],
    file: &[u8],
    inputs: u32,
) -> io::Result<()> {
    let opened = opening::open(file);
    let named = print::print_name(rt, name);
    print::print_line(rt, b"F", &[u64::from(opened.refusal)]);
    let mut b = opened.book;
    let handed = hand_all(rt, input, &mut b, inputs);
    state::print_book(rt, &b);
    handed.and(named)
}

// One case. An error says that it is the last.
fn print_next(rt: &impl Print, input: &mut impl Read) -> io::Result<()> {
    let mut head = [0u8; 12];
    input.read_exact(&mut head)?;
    let mut name = [0u8; MOST_NAME];
    let named = fields::u32_at(&head, 0) as usize;
    let name = name.get_mut(..named).ok_or(io::ErrorKind::InvalidData)?;
    let mut file = [0u8; limits::MOST_READ];
    let n = fields::u32_at(&head, 4) as usize;
    let file = file.get_mut(..n).ok_or(io::ErrorKind::InvalidData)?;
    input.read_exact(name)?;
    input.read_exact(file)?;
    print_case(rt, input, name, file, fields::u32_at(&head, 8))
}

// A proved loop has to end, and nothing says that the input does: so it takes at most a number of turns that no run uses up.
fn main(rt: HostRuntime) {
    let mut input = rt.stdin();
    for _ in 0..u64::MAX {
        if print_next(&rt, &mut input).is_err() {
            break;
        }
    }
}
