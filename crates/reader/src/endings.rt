// End tags.
ghost use Rattle.std.specs.Prelude.{◌≤◌, length};
ghost use Rattle.reader.specs.Walks.{EndRead};

use crate::names;

// The place behind an end tag of a name that stands at a place, which is behind its </; None where another thing stands there.
pub fn end_tag(text: &[u8], at: usize, name: &[u8]) -> Option<usize>
    requires { at ≤ length text.now }
    ensures { EndRead text.now at name.now result }
{
    let n = name.len();
    if text.len() - at < n {
        return None;
    }
    let stop = at + n;
    if !names::same_name(&text[at..stop], name) {
        return None;
    }
    let end = scan::run_end(text, stop, &scan::Space);
    if scan::byte(text, end) != b'>' {
        return None;
    }
    Some(end + 1)
}
