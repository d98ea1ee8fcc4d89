// Attributes that a text begins with: the first one's name, and what stands behind it. Where no attribute stands, these are some part of
// the text.
ghost use Rattle.std.specs.Prelude.{◌≡◌, drop};
ghost use Rattle.repeats.specs.Repeats.{name_in, behind};

use scan::{Name, Space, Value, run_end};

// The text from a place on. Nothing is asked of the place.
pub fn from_place(text: &[u8], at: usize) -> &[u8]
    ensures { result.now ≡ drop at text.now }
{
    &text[at.min(text.len())..]
}

// The name of the first attribute.
pub fn name_in(s: &[u8]) -> &[u8]
    ensures { result.now ≡ name_in s.now }
{
    let from = run_end(s, 0, &Space);
    let end = run_end(s, from, &Name);
    &s[from..end]
}

// What stands behind the first attribute.
pub fn behind(s: &[u8]) -> &[u8]
    ensures { result.now ≡ behind s.now }
{
    let name = run_end(s, 0, &Space);
    let equals = run_end(s, run_end(s, name, &Name), &Space);
    let quote = run_end(s, equals + 1, &Space);
    let close = run_end(s, quote + 1, &Value);
    from_place(s, close + 1)
}
