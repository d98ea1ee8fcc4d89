// Lines on standard output, one piece after the other. What can't be written is left out, and nothing tells.

pub fn put(rt: &impl Print, s: &[u8]) {
    let _ = rt.write_all(s);
}

pub fn print_number(rt: &impl Print, n: u64) {
    let _ = print!(rt; " {n}");
}

pub fn print_end(rt: &impl Print) {
    put(rt, b"\n")
}

// What is asked and a space, and the name of the case.
pub fn print_case(rt: &impl Print, asked: &[u8], name: &[u8]) {
    put(rt, asked);
    put(rt, name)
}

// A line, and the answer behind it.
pub fn print_answer(rt: &impl Print, line: &[u8], answer: u8) {
    put(rt, line);
    print_number(rt, u64::from(answer));
    print_end(rt)
}

// A line that asks nothing that is known.
pub fn print_unknown(rt: &impl Print, line: &[u8]) {
    put(rt, line);
    put(rt, b" ?\n")
}
