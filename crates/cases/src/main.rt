// Runs worked cases. Standard input has a case a line, at most 65,536 bytes in all. A line's first letter says what is asked, and what
// it is asked of begins at the sixth place; each line is printed with the answer behind it, and one that is too short or begins
// otherwise with a question mark.
//
//     bic, iban, txid TEXT    (a bic has two spaces before its text) whether the text is such a code
//     grps TEXT               how many groups of seven digits the check of the text as an IBAN takes
//     read NAME BYTES         what the bytes read as if they are a ticket: the refusal, or 0 and the kind, time and amount
//     part NAME BYTES         the TxId part of such a ticket
//     file NAME BYTES         what they give as a day file: the refusal, the participants, the routes, the tickets and the first one's
//                             place; then for each route row where it leads and in how many rows
//     hand LENGTH BYTES       what handing them in as a ticket to a book without participants answers, with a report buffer of LENGTH
//                             bytes, at most 8,192: refusal, reports, rows
//     way  NAME BIC BYTES     (two spaces before the name) where the BIC leads in such a day file and in how many rows, or - for nowhere
//
// BYTES are groups of hexadecimal digits between spaces; a group with an x and a number behind it stands that many times.
#![tactic(auto)]

mod bytes;
mod files;
mod hands;
mod print;
mod tickets;
mod words;

fn run_line(rt: &impl Print, line: &[u8]) {
    let Some((first, rest)) = line.split_first_chunk::<5>() else {
        return print::print_unknown(rt, line);
    };
    match first[0] {
        b'b' => print::print_answer(rt, line, codes::zolfigar_bic_ok(rest)),
        b'i' => print::print_answer(rt, line, codes::zolfigar_iban_ok(rest)),
        b'g' => print::print_answer(rt, line, codes::zolfigar_iban_groups(rest)),
        b't' => print::print_answer(rt, line, codes::zolfigar_txid_ok(rest)),
        b'r' => tickets::run_read(rt, rest),
        b'p' => tickets::run_part(rt, rest),
        b'f' => files::run_file(rt, rest),
        b'w' => files::run_way(rt, rest),
        b'h' => hands::run_hand(rt, rest),
        _ => print::print_unknown(rt, line),
    }
}

fn main(rt: HostRuntime) {
    let mut buffer = [0u8; 65536];
    let n = streams::read_full(&mut rt.stdin(), &mut buffer);
    for line in buffer[..n].split_inclusive(|c| *c == b'\n') {
        run_line(&rt, line.strip_suffix(b"\n").unwrap_or(line))
    }
}
