// The types of a day file and of its roster, and what is asked of one of their values. specs/ says what a file of any bytes gives, and
// what following a payee BIC is; `dayrows` and `dayread` read a file. The rules and all that stands on them need of a day file what it
// gives; only `book` and the programs need those two.
#![tactic(auto)]

pub mod check;
pub mod header;
pub mod limits;
pub mod roster;
pub mod route;

use roster::Roster;
pub use roster::is_bank;
pub use route::{reached, rows_followed};

// What a day file gives: the refusal, 0 if none; the roster, empty if refused; how many tickets there are and where the first lies. It is
// no Result, since a refused file gives a roster too: `open` makes the empty book by it (`refused_file`), as by any other.
#[derive(Clone, Copy)]
pub struct DayFile {
    pub refusal: u8,
    pub roster: Roster,
    pub tickets: usize,
    pub first: usize,
}
