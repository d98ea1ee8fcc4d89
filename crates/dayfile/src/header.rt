// The header of a day file.

// A number for each section.
#[derive(Clone, Copy, Default)]
pub struct Sections {
    pub participants: usize,
    pub routes: usize,
    pub tickets: usize,
}

#[derive(Clone, Copy, Default)]
pub struct Header {
    pub counts: Sections,
    pub offsets: Sections,
}
