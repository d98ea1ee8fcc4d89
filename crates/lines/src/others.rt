// The lines of a day besides its tickets': those of the participants at its end, or the one line of a refused day file.
ghost use Rattle.std.specs.Prelude.{◌+◌, ◌*◌, ◌≤◌, length};
ghost use Rattle.lines.specs.Written.{Written};
ghost use Rattle.rules.specs.Program.{refusal_line};
ghost use Rattle.lines.specs.Lines.{cover_line, covers_to, longest_cover_line, longest_refusal_line};

use super::line;
use rules::Cover;

fn put_cover(text: &mut [u8], at: usize, p: usize, c: Cover) -> usize
    requires { at + longest_cover_line ≤ length text.old }
    ensures { Written text.old text.new at (cover_line p c) result × (result ≤ at + longest_cover_line) }
{
    line::put_line(text, at, b'C', &[p as u64, c.available, c.reserved, c.held])
}

pub fn put_covers(covers: &[Cover], text: &mut [u8]) -> usize
    requires { longest_cover_line * length covers.now ≤ length text.old }
    ensures { Written text.old text.new 0 (covers_to covers.now (length covers.now)) result × (result ≤ length text.old) }
{
    let mut at = 0;
    for (p, &c) in covers.iter().enumerate() {
        at = put_cover(text, at, p, c);
    }
    at
}

pub fn put_refusal(refusal: u8, text: &mut [u8]) -> usize
    requires { longest_refusal_line ≤ length text.old }
    ensures { Written text.old text.new 0 (refusal_line refusal) result × (result ≤ length text.old) }
{
    line::put_line(text, 0, b'F', &[refusal as u64])
}
