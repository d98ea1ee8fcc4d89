// A tree that tells names apart, and a name's way through it (specs/Tree.antt).
ghost use Rattle.std.specs.Prelude.{◌≡◌, ◌≤◌, ◌<◌, ℕ, Bool, false};
ghost use Rattle.repeats.specs.Tree.{turn_of, next_of, last_of, leaf_of};
ghost use Rattle.repeats.specs.declared.tree.Node.{Node};

// A node asks a name for bits of one of its bytes, and has a link for either answer.
#[derive(Clone, Copy)]
pub struct Node {
    pub byte: u16,
    pub mask: u8,
    pub links: [u16; 2],
}

impl Node {
    // Which of its links a name takes.
    pub fn turn(self, name: &[u8]) -> usize
        ensures { (result ≡ turn_of self name.now) × (result ≤ 1) }
    {
        (scan::byte(name, self.byte as usize) & self.mask != 0) as usize
    }
}

// A link below 13,104 is to that node, any other is a leaf. It is a number and no enum, so that each node that is met is there.
#[derive(Drop)]
pub struct Tree {
    pub nodes: [Node; 13104],
}

impl Tree {
    pub fn new() -> Tree {
        Tree {
            nodes: [Node {
                byte: 0,
                mask: 0,
                links: [0; 2],
            }; 13104],
        }
    }

    // The link that a name takes at a node.
    pub fn next(&self, name: &[u8], node: usize) -> usize
        requires { node < 13104 }
        ensures { result ≡ next_of self.now.nodes name.now node }
    {
        let asking = self.nodes[node];
        asking.links[asking.turn(name)] as usize
    }

    // The last node on a name's way of at most some steps, before the first one at which it stops.
    pub fn last_before<F: Fn(Node) -> bool>(&self, name: &[u8], steps: usize, stops: F) -> usize
        requires { F.IsAlwaysCallable stops }
        ensures node { result < 13104 }
        ensures never { ((n : Node) (r : Bool) → F.post stops n r → r ≡ false)
            → result ≡ last_of (next_of self.now.nodes name.now) steps 0 }
    {
        let mut node = 0;
        for _ in 0..steps {
            let next = self.next(name, node);
            if 13104 <= next || stops(self.nodes[next]) {
                break;
            }
            node = next;
        }
        node
    }

    // The last node on its way of at most some steps.
    pub fn last(&self, name: &[u8], steps: usize) -> usize
        ensures { (result ≡ last_of (next_of self.now.nodes name.now) steps 0) × (result < 13104) }
    {
        self.last_before(name, steps, |_| false)
    }

    // Where its way of at most some steps ends.
    pub fn leaf(&self, name: &[u8], steps: usize) -> usize
        ensures { result ≡ leaf_of self.now.nodes steps name.now }
    {
        self.next(name, self.last(name, steps))
    }
}
