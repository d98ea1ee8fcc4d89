// The clearing program: a day file on standard input, its lines on standard output.
#![tactic(auto)]

use dayfile::limits;

// It ends at the first piece that can't be written, and nothing tells that.
fn main(rt: HostRuntime) {
    // of a longer input these are enough to give its refusal
    let mut buffer = [0u8; limits::MOST_READ];
    let n = streams::read_full(&mut rt.stdin(), &mut buffer);
    let _ = output::print_day(&rt, &buffer[..n]);
}
