// The checks of a day file, refusals 1 to 5, one by one: its header, and the rows of participants and of routes.
#![tactic(auto)]

mod check;
mod header;
mod repeats;
mod rows;

pub use check::{check_counts, check_participants, check_places, check_routes};
pub use header::read_header;
