// A number in decimal, written at a place. Its digits are counted, and then filled from the last to the first: `decimal` has the digits
// of a tenth and then the last, so a turn of that loop is its own step. std's Display writes to a writer, which a part of a lent slice is
// not; without heap its text would go through a buffer of its own and be copied.
ghost use Rattle.std.specs.Prelude.{◌≡◌, ◌+◌, ◌≤◌, length};
ghost use Rattle.lines.specs.Written.{Written};
ghost use Rattle.rules.specs.Program.{decimal};

// How many digits a number has.
fn digits(n: u64) -> usize
    ensures { result ≡ length (decimal n) }
{
    let mut left = n;
    let mut k = 1;
    while 10 <= left {
        left = left / 10;
        k += 1;
    }
    k
}

// The last digit first.
fn put_digits(text: &mut [u8], at: usize, n: u64) -> usize
    requires { at + length (decimal n) ≤ length text.old }
    ensures { Written text.old text.new at (decimal n) result }
{
    let end = at + digits(n);
    let mut left = n;
    let mut i = end;
    while 10 <= left {
        i -= 1;
        text[i] = b'0' + (left % 10) as u8;
        left = left / 10;
    }
    text[at] = b'0' + left as u8;
    end
}

// Most numbers of a line have one digit. Without the loops this is short enough for the compiler to put it into its callers.
pub fn put_decimal(text: &mut [u8], at: usize, n: u64) -> usize
    requires { at + length (decimal n) ≤ length text.old }
    ensures { Written text.old text.new at (decimal n) result }
{
    let digit = n < 10;
    if digit {
        text[at] = b'0' + n as u8;
        return at + 1;
    }
    put_digits(text, at, n)
}
