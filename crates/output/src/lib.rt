// What the programs print: a day from its file to its text, in pieces that fit a buffer, the tickets' lines batch by batch, then the
// participants', or the one line of a refused day file; and the pieces on standard output.
#![tactic(auto)]

pub mod batch;
mod piece;
mod stdout;

pub use batch::{Printed, take_batch};
pub use piece::Day;
pub use stdout::print_day;
