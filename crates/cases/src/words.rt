// Words and numbers of a line.
ghost use Rattle.std.specs.Prelude.{◌≡◌, ◌+◌, ◌≤◌, length, IfSome};

// What stands before the first space and what behind it; nothing where there is no space.
pub fn split_once(line: &[u8]) -> Option<(&[u8], &[u8])>
    ensures { IfSome result (λ parts. length parts.0.now + 1 + length parts.1.now ≡ length line.now) }
{
    let at = line.iter().position(|c| *c == b' ')?;
    Some((&line[..at], &line[at + 1..]))
}

// The first word, which may be all, and what stands behind it.
pub fn split_first(line: &[u8]) -> (&[u8], &[u8])
    ensures { length result.0.now ≤ length line.now }
{
    split_once(line).unwrap_or((line, &[]))
}

fn digit(c: u8) -> u64
    ensures { result ≤ 9 }
{
    match c {
        b'0'..=b'9' => (c - b'0') as u64,
        _ => 0,
    }
}

// The number that the digits of s are, of which the last five count.
pub fn number(s: &[u8]) -> u64
    ensures { result ≤ 99999 }
{
    let mut n = 0;
    for &c in s {
        n = n % 10000 * 10 + digit(c);
    }
    n
}
