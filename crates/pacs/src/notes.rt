// What the reader keeps of the named elements that it met, until all are judged.
ghost use Rattle.std.specs.Prelude.{[]};
ghost use Rattle.pacs.specs.Kept.{Kept};

use crate::refusals::Refused;
use crate::rows::COUNT;

// A part of the text that is read, and where it begins there.
#[derive(Clone, Copy)]
pub struct Text<'a> {
    pub place: usize,
    pub bytes: &'a [u8],
}

// The text of each row, the row that is due, what is wrong first, and whether the amount's attributes are the one Ccy="EUR".
#[derive(Clone, Copy)]
pub struct Notes<'a> {
    pub texts: [Text<'a>; COUNT],
    pub due: usize,
    pub fault: Option<Refused>,
    pub euro: bool,
}

impl<'a> Notes<'a> {
    pub fn new() -> Notes<'a>
        ensures { Kept [] result }
    {
        Notes {
            texts: [Text {
                place: 0,
                bytes: &[],
            }; COUNT],
            due: 0,
            fault: None,
            euro: false,
        }
    }
}
