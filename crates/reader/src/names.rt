// Two names compared, four bytes a turn: the fold over all bytes took a third longer a message (docs/BENCHMARKS.md), so the loops count.
ghost use Rattle.std.specs.Prelude.{◌≡◌, ◌&&◌, ◌+◌, ◌≤◌, length, drop};
ghost use Rattle.fields.specs.Text.{same};

// Whether the four bytes from a place on are the same.
fn same_four(a: &[u8], b: &[u8], i: usize) -> bool
    requires { (i + 4 ≤ length a.now) × (i + 4 ≤ length b.now) }
    ensures { same (drop i a.now) (drop i b.now)
        ≡ (result && same (drop (i + 4) a.now) (drop (i + 4) b.now)) }
{
    (a[i] == b[i]) & (a[i + 1] == b[i + 1]) & (a[i + 2] == b[i + 2]) & (a[i + 3] == b[i + 3])
}

pub fn same_name(a: &[u8], b: &[u8]) -> bool
    ensures { result ≡ same a.now b.now }
{
    if a.len() != b.len() {
        return false;
    }
    let mut i = 0;
    while 4 <= a.len() - i {
        if !same_four(a, b, i) {
            return false;
        }
        i += 4;
    }
    while i < a.len() {
        if a[i] != b[i] {
            return false;
        }
        i += 1;
    }
    true
}
