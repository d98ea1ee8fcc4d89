// Places in a text: the byte at a place, the classes of bytes, and where a run of bytes of one class ends. Nothing is asked of a place:
// behind the text's end the byte is 0, and a run is empty. Text and place stay two arguments: a reader answers and keeps places alone.
#![tactic(auto)]

mod attributes;
mod classes;

ghost use Rattle.std.specs.Prelude.{◌≡◌, ◌+◌, get_or, drop};
ghost use Rattle.xml.specs.Bytes.{run_length};

pub use attributes::{AttributePlaces, attribute_at, begins, value_at};
pub use classes::{Class, Name, Space, Text, Value, is_first};

// The byte at a place, 0 where there is none.
pub fn byte(text: &[u8], at: usize) -> u8
    ensures { result ≡ get_or text.now at 0 }
{
    text.get(at).copied().unwrap_or(0)
}

// Where the run of a class's bytes from a place on ends. The loop counts, four bytes a turn: with one byte a turn a message of 2,090 bytes
// takes 2,520 nanoseconds in the place of 2,160.
#[inline]
pub fn run_end<C: Class>(text: &[u8], at: usize, class: &C) -> usize
    ensures { result ≡ at + run_length C.is (drop at text.now) }
{
    let last = text.len().saturating_sub(3);
    let mut i = at;
    while i < last {
        if !class.has(text[i]) {
            return i;
        }
        if !class.has(text[i + 1]) {
            return i + 1;
        }
        if !class.has(text[i + 2]) {
            return i + 2;
        }
        if !class.has(text[i + 3]) {
            return i + 3;
        }
        i += 4;
    }
    while i < text.len() && class.has(text[i]) {
        i += 1;
    }
    i
}
