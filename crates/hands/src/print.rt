// Lines on standard output, one piece after the other. What can't be written is left out, and nothing tells.
use std::io;

pub fn put(rt: &impl Print, s: &[u8]) {
    let _ = rt.write_all(s);
}

// The error is that the line's end can't be written.
pub fn print_name(rt: &impl Print, name: &[u8]) -> io::Result<()> {
    put(rt, b"# ");
    put(rt, name);
    rt.write_all(b"\n")
}

// A letter, and each number behind a space.
pub fn print_numbers(rt: &impl Print, letter: &[u8], ns: &[u64]) {
    put(rt, letter);
    for &n in ns {
        let _ = print!(rt; " {n}");
    }
}

pub fn print_line(rt: &impl Print, letter: &[u8], ns: &[u64]) {
    print_numbers(rt, letter, ns);
    put(rt, b"\n")
}
