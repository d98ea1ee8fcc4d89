// Cases of tickets. What has room for indexes stays a function of its own for the compiler: put into its caller, it would have other cases
// clear that room.
use super::{bytes, print, words};
use index::Index;
use sight::Seen;
use ticket::kinds::Kind;
use ticket::layout;

// 01's number of a kind; a yes is 41 here and a no 42.
fn kind_number(kind: Kind) -> u8 {
    match kind {
        Kind::CoverIn => 1,
        Kind::CoverOut => 2,
        Kind::Order => 3,
        Kind::Yes => 41,
        Kind::No => 42,
        Kind::Recall => 5,
        Kind::Return => 6,
        Kind::Decline => 7,
        Kind::Inquiry => 8,
        Kind::Cut => 9,
        Kind::Confirm => 10,
        Kind::Tick => 11,
    }
}

// What is seen of a ticket at clock 0, with no participants, orders or routes.
fn seen(t: &[u8]) -> Result<Seen, u8> {
    if t.len() != layout::LENGTH {
        return Err(7);
    }
    sight::see(
        0,
        t,
        &Index::<2, 32>::new(),
        &Index::<7, 256>::new(),
        &Index::<2, 64>::new(),
    )
}

fn print_fields(rt: &impl Print, s: Seen) {
    print::print_number(rt, 0);
    print::print_number(rt, u64::from(kind_number(s.kind)));
    print::print_number(rt, u64::from(s.time));
    print::print_number(rt, s.amount)
}

#[inline(never)]
pub fn run_read(rt: &impl Print, line: &[u8]) {
    let (name, groups) = words::split_first(line);
    print::print_case(rt, b"read ", name);
    let mut room = [0u8; 4096];
    match seen(bytes::put_bytes(groups, &mut room)) {
        Ok(s) => print_fields(rt, s),
        Err(r) => print::print_number(rt, u64::from(r)),
    }
    print::print_end(rt)
}

pub fn run_part(rt: &impl Print, line: &[u8]) {
    let (name, groups) = words::split_first(line);
    print::print_case(rt, b"part ", name);
    let mut room = [0u8; 4096];
    let part = ticket::txid(bytes::put_bytes(groups, &mut room));
    print::print_number(rt, part.len() as u64);
    print::put(rt, b" ");
    print::put(rt, part);
    print::print_end(rt)
}
