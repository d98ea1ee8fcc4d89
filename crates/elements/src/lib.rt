// The named elements of a message, as its reader meets them: the role of an element by that of the element around it and its name, and
// what is kept of an element until all are judged.
#![tactic(auto)]

mod currency;
mod keeping;
mod rows;

pub use keeping::note;
pub use rows::row_of;

// A tag of a text: where its < stands, where its name begins and ends, where it itself ends, and whether it is a start tag, in which others
// may nest.
#[derive(Clone, Copy)]
pub struct Tag {
    pub start: usize,
    pub name: usize,
    pub name_end: usize,
    pub end: usize,
    pub nests: bool,
}
