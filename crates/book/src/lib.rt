// The book: opening one from a day file, and handing in one ticket.
#![tactic(auto)]

pub mod handing;
pub mod opening;
