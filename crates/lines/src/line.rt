// A line of numbers behind a letter, written at a place.
ghost use Rattle.std.specs.Prelude.{◌+◌, ◌≤◌, ◌∷◌, length};
ghost use Rattle.lines.specs.Written.{Written};
ghost use Rattle.rules.specs.Program.{decimal, numbers};

use super::decimal;

// The number behind a space.
fn put_number(text: &mut [u8], at: usize, n: u64) -> usize
    requires { at + length (32 ∷ decimal n) ≤ length text.old }
    ensures { Written text.old text.new at (32 ∷ decimal n) result }
{
    text[at] = b' ';
    decimal::put_decimal(text, at + 1, n)
}

// Each number behind a space, and the end of the line.
fn put_numbers(text: &mut [u8], at: usize, ns: &[u64]) -> usize
    requires { at + length (numbers ns.now) ≤ length text.old }
    ensures { Written text.old text.new at (numbers ns.now) result }
{
    let mut end = at;
    for &n in ns {
        end = put_number(text, end, n);
    }
    text[end] = b'\n';
    end + 1
}

pub fn put_line(text: &mut [u8], at: usize, letter: u8, ns: &[u64]) -> usize
    requires { at + length (letter ∷ numbers ns.now) ≤ length text.old }
    ensures { Written text.old text.new at (letter ∷ numbers ns.now) result }
{
    text[at] = letter;
    put_numbers(text, at + 1, ns)
}
