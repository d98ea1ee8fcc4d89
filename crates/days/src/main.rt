// The clearing program over many days. Standard input has for each day the lengths of its name and of its bytes, each in 4 bytes, the
// highest first, at most 256 and 57,101, then the name and the bytes; on standard output stand a line with the name and the day's lines.
// It ends where the input does, at a greater length, at a day that is cut off, and where nothing can be written.
#![tactic(auto)]

use dayfile::limits;
use std::io;
use std::io::Read;

const MOST_NAME: usize = 256;

// One day. An error says that it is the last: that the input ends, a length is greater, or something can't be written.
fn print_next(rt: &impl Print, input: &mut impl Read) -> io::Result<()> {
    let mut head = [0u8; 8];
    input.read_exact(&mut head)?;
    let mut name = [0u8; MOST_NAME];
    let named = fields::u32_at(&head, 0) as usize;
    let name = name.get_mut(..named).ok_or(io::ErrorKind::InvalidData)?;
    let mut file = [0u8; limits::MOST_READ];
    let n = fields::u32_at(&head, 4) as usize;
    let file = file.get_mut(..n).ok_or(io::ErrorKind::InvalidData)?;
    input.read_exact(name)?;
    input.read_exact(file)?;
    streams::write_name(&mut io::writer(rt), name)?;
    output::print_day(rt, file)
}

// A proved loop has to end, and nothing says that the input does: so it takes at most a number of turns that no run uses up.
// Nothing tells which error was the last.
fn main(rt: HostRuntime) {
    let mut input = rt.stdin();
    for _ in 0..u64::MAX {
        if print_next(&rt, &mut input).is_err() {
            break;
        }
    }
}
