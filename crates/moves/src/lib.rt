// Small functions on one cover and on all covers, on what the book finds, and on reports in a lent buffer. Each equals a definition of
// `rules` or `course`; the modules are named after the files of definitions there.
#![tactic(auto)]

pub mod cover;
pub mod cut;
pub mod find;
pub mod sums;
pub mod told;
