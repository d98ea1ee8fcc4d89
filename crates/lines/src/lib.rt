// What the book's core leaves in its buffers, as the text that the program prints. Each function answers where its text ends. What the
// core leaves fits its widths (`ran-printable`), so it reads back, and the text is the rules' `lines_from` (`lines_are`). Room for text is
// counted in lines: 37 bytes for the longest of a ticket or a report, by the widths of its numbers, 86 for a participant's.
#![tactic(auto)]

mod decimal;
mod line;
mod others;
mod tickets;

pub use decimal::put_decimal;
pub use others::{put_covers, put_refusal};
pub use tickets::put_lines;
