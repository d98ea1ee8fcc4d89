// Cases of one ticket handed in.
use super::{bytes, print, words};
use book::{handing, opening};

// The book is that of an empty file, without participants. The report buffer has at most 8,192 bytes. It stays a function of its own for
// the compiler: put into its caller, it would have other cases clear the place of the book, and its own room cleared twice.
#[inline(never)]
fn print_handed(rt: &impl Print, length: u64, groups: &[u8]) {
    let mut room = [0u8; 4096];
    let ticket = bytes::put_bytes(groups, &mut room);
    let mut reports = [0u8; 8192];
    let most = length.min(8192) as usize;
    let b = opening::open(&[]).book;
    let h = handing::hand_in(b, ticket, &mut reports[..most]);
    print::print_number(rt, u64::from(h.refusal));
    print::print_number(rt, u64::from(h.reports));
    print::print_number(rt, u64::from(h.rows));
    print::print_end(rt)
}

pub fn run_hand(rt: &impl Print, line: &[u8]) {
    let (length, groups) = words::split_first(line);
    print::print_case(rt, b"hand ", length);
    print_handed(rt, words::number(length), groups)
}
