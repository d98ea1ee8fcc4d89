// Small functions on one order. Each equals a definition of `rules` or `course`; the modules are named after the files of definitions
// there.
#![tactic(auto)]

pub mod status;
pub mod tell;
pub mod tick;
pub mod transfer;
