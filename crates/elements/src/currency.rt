// The currency of an amount: whether the attributes of a tag are exactly the one Ccy="EUR".
ghost use Rattle.std.specs.Prelude.{◌≡◌, List, [], ◌∷◌, ℕ, ◌-◌, ◌≤◌, length, take, drop};
ghost use Rattle.fields.specs.Text.{same};
ghost use Rattle.xml.specs.Tree.{Attribute};
ghost use Rattle.xml.specs.Scanning.{attributes_in, attributed};
ghost use Rattle.pacs.specs.Judged.{is_euro};

use scan::{AttributePlaces, Space};

// Whether three bytes stand between two places.
fn three(text: &[u8], at: usize, end: usize, a: u8, b: u8, c: u8) -> bool
    requires { (at ≤ end) × (end ≤ length text.now) }
    ensures { result ≡ same (take (end - at) (drop at text.now)) (a ∷ b ∷ c ∷ []) }
{
    if end - at != 3 {
        return false;
    }
    (text[at] == a) & (text[at + 1] == b) & (text[at + 2] == c)
}

// Whether the attributes from a place on are that one.
pub fn only_euro(text: &[u8], at: usize) -> bool
    ensures { (fuel : ℕ) (more : List Attribute) (space z : List ℕ) → attributes_in fuel (drop at text.now) ≡ attributed more space z
        → result ≡ is_euro more }
{
    let Some(
        AttributePlaces {
            name,
            end,
            value,
            close,
        },
    ) = scan::attribute_at(text, at)
    else {
        return false;
    };
    let rest = close + 1;
    let named = three(text, name, end, b'C', b'c', b'y');
    let valued = three(text, value, close, b'E', b'U', b'R');
    named & valued & !scan::begins(text, rest, scan::run_end(text, rest, &Space))
}
