// What a pacs.008 text says: 02's slip 3. specs/ has the named elements, what is judged of them, and the walk that the reader takes
// through a text; proofs/ has the laws by which that walk finds the one document that the text is. Of code there are the types alone in
// which the crates of the reader hand these things to one another.
#![tactic(auto)]

pub mod notes;
pub mod open;
pub mod refusals;
pub mod rows;
