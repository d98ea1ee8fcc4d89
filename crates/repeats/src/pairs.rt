// Names compared pairwise, each attribute being read again for each one before it. Behind the last one nothing is read.
// A text and its count stay two arguments: each loop counts by `for`, and the text goes on beside it.
ghost use Rattle.std.specs.Prelude.{◌≡◌};
ghost use Rattle.repeats.specs.Repeats.{has_name_in, repeats_in};

use crate::attributes::{behind, name_in};

// Whether one of the count attributes that a text begins with has the name.
pub fn has_name(s: &[u8], count: usize, name: &[u8]) -> bool
    ensures { result ≡ has_name_in name.now count s.now }
{
    if count == 0 {
        return false;
    }
    let mut rest = s;
    for _ in 1..count {
        if fields::same_bytes(name, name_in(rest)) {
            return true;
        }
        rest = behind(rest);
    }
    fields::same_bytes(name, name_in(rest))
}

// Whether two of them have the same name.
pub fn repeats(s: &[u8], count: usize) -> bool
    ensures { result ≡ repeats_in count s.now }
{
    let mut rest = s;
    for left in (1..count).rev() {
        let next = behind(rest);
        if has_name(next, left, name_in(rest)) {
            return true;
        }
        rest = next;
    }
    false
}
