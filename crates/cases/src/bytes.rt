// Bytes written as hexadecimal digits, in groups between spaces; a group may be repeated.
ghost use Rattle.std.specs.Prelude.{◌≤◌, ◌<◌, length};

use super::words;

fn hex_value(c: u8) -> u8
    ensures { result < 16 }
{
    match c {
        b'0'..=b'9' => c - b'0',
        b'a'..=b'f' => c - b'a' + 10,
        _ => 0,
    }
}

// The bytes of all groups, at the start of the room as far as it reaches.
pub fn put_bytes<'a>(groups: &[u8], room: &'a mut [u8]) -> &'a [u8]
    ensures { length result.now ≤ length room.old }
{
    let mut n = 0;
    for group in groups.split(|c| *c == b' ') {
        let (digits, times) = match group.iter().position(|c| *c == b'x') {
            Some(mark) => (&group[..mark], words::number(&group[mark..])),
            None => (group, 1),
        };
        for _ in 0..times {
            for pair in digits.chunks_exact(2) {
                if n < room.len() {
                    room[n] = hex_value(pair[0]) * 16 + hex_value(pair[1]);
                    n += 1;
                }
            }
        }
    }
    &room[..n]
}
