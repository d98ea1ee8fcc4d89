// A tree that tells the names of a tag's attributes apart, grown by one name after the other. Nothing is promised of it: what it gives
// is only used where a second reading finds it right (`many` of lib.rt). A name's way through the tree ends at the leaf of a name before
// it; the two get a node that asks for the first bit in which they differ. Nodes on a way ask for one bit after the other, so a way has at
// most as many nodes as the name has bits, whatever names were chosen.
ghost use Rattle.std.specs.Prelude.{◌≤◌, ◌<◌, IfSome};

use crate::attributes::{behind, from_place, name_in};
use crate::tree::{Node, Tree};

// How many bytes two names begin with alike.
fn alike(a: &[u8], b: &[u8]) -> usize {
    a.iter().zip(b).take_while(|(x, y)| x == y).count()
}

// The number of the name whose leaf a link is.
fn name_of(link: usize) -> Option<usize>
    ensures { IfSome result (λ i. i < 13104) }
{
    link.checked_sub(13104).filter(|&i| i < 13104)
}

// Whether a node asks for a bit behind the one of a byte and a mask.
fn asks_behind(node: Node, k: usize, mask: u8) -> bool {
    let byte = node.byte as usize;
    (k < byte) | ((k == byte) & (node.mask < mask))
}

impl Tree {
    // Name i gets node i, which asks for the bit of byte k and the mask, on the name's way before all that ask for bits behind it.
    fn part(&mut self, name: &[u8], i: usize, k: u16, mask: u8)
        requires { i < 13104 }
    {
        let before = self.last_before(name, i, |node| asks_behind(node, k as usize, mask));
        let turn = self.nodes[before].turn(name);
        let link = self.nodes[before].links[turn];
        let mut node = Node {
            byte: k,
            mask,
            links: [link; 2],
        };
        node.links[node.turn(name)] = (13104 + i) as u16;
        self.nodes[i] = node;
        self.nodes[before].links[turn] = i as u16;
    }

    // The tree gets one name more, that of attribute i. Where the same name was in it, its leaf is now the later one's.
    fn add(&mut self, text: &[u8], places: &[u32; 13104], i: usize)
        requires { i < 13104 }
    {
        let name = name_in(from_place(text, places[i] as usize));
        let end = self.last(name, i);
        let turn = self.nodes[end].turn(name);
        let Some(met) = name_of(self.nodes[end].links[turn] as usize) else {
            return;
        };
        let other = name_in(from_place(text, places[met] as usize));
        let k = alike(name, other);
        let differing = scan::byte(name, k) ^ scan::byte(other, k);
        match (u16::try_from(k), differing.checked_ilog2()) {
            (Ok(k), Some(bit)) => self.part(name, i, k, 1 << bit),
            (Ok(_), None) => self.nodes[end].links[turn] = (13104 + i) as u16,
            (Err(_), _) => {}
        }
    }

    // The tree of all names, but for those from 2 ^ 32 bytes on: a place has 32 bits, so that the places take half as much of the stack. At its
    // first node every name takes the first link.
    pub fn grow(&mut self, text: &[u8], count: usize)
        requires { count ≤ 13104 }
    {
        let mut places = [0u32; 13104];
        self.nodes[0].links[0] = 13104;
        let mut rest = text;
        for i in 0..count {
            let Ok(place) = u32::try_from(text.len() - rest.len()) else {
                return;
            };
            places[i] = place;
            self.add(text, &places, i);
            rest = behind(rest);
        }
    }
}
