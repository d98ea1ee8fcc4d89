// Whether an attribute's name stands twice in a tag. The tag is read again from the left, from a place on; nothing is asked of the place,
// nor of the count.
#![tactic(auto)]

mod attributes;
mod growing;
mod pairs;
mod tree;

ghost use Rattle.std.specs.Prelude.{◌≡◌, not, List, ℕ, ◌≤◌, length, drop};
ghost use Rattle.xml.specs.Tree.{Attribute};
ghost use Rattle.xml.specs.Scanning.{attributed, attributes_in};
ghost use Rattle.xml.specs.WellFormed.{distinct};
ghost use Rattle.repeats.specs.Repeats.{repeats_in};

use attributes::{behind, from_place, name_in};
use tree::Tree;

// Many names, told apart by a tree: where each leads to its own leaf, no two are the same. Where one doesn't, it stands again behind
// itself, or the tree is of no use and the names are compared pairwise; as the tree is grown that never happens. It stays a function of its
// own for the compiler: put into `repeated`, its 160 KB of arrays would be made ready at each call, 150 nanoseconds for a tag of two
// attributes.
#[inline(never)]
fn many(s: &[u8], count: usize) -> bool
    requires { count ≤ 13104 }
    ensures { result ≡ repeats_in count s.now }
{
    let mut tree = Tree::new();
    tree.grow(s, count);
    let mut rest = s;
    for i in 0..count {
        let name = name_in(rest);
        let next = behind(rest);
        if tree.leaf(name, count) != 13104 + i {
            return pairs::has_name(next, count - i - 1, name) || pairs::repeats(s, count);
        }
        rest = next;
    }
    false
}

// Whether two of the count attributes from a place on have the same name. An attribute has at least 5 bytes, so 65,520 bytes hold at most
// 13,104.
pub fn repeated(text: &[u8], at: usize, count: usize) -> bool
    ensures { (fuel : ℕ) (more : List Attribute) (space z : List ℕ)
        → attributes_in fuel (drop at text.now) ≡ attributed more space z
        → count ≡ length more
        → result ≡ not (distinct more) }
{
    let s = from_place(text, at);
    if count <= 16 {
        return pairs::repeats(s, count);
    }
    if count <= 13104 {
        return many(s, count);
    }
    many(s, 13104) || pairs::repeats(s, count)
}
