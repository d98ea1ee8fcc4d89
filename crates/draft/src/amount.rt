// The amount of a message: 1 to 9 digits, a point and two digits.
ghost use Rattle.std.specs.Prelude.{◌≡◌, true, ◌≤◌, ◌<◌, length};
ghost use Rattle.xml.specs.Bytes.{all_of};
ghost use Rattle.pacs.specs.Judged.{is_digit, digits_behind};
ghost use Rattle.draft.specs.Drafting.{amount_in, CentsOf};

use classes::Class;
use pacs::notes::Text;
use pacs::refusals::{Refused, Wrong};

// The number that is n with digits behind it.
fn digits_behind(n: u64, s: &[u8]) -> u64
    requires { (n < 1000000000) × (length s.now ≤ 9) × (all_of is_digit s.now ≡ true) }
    ensures { result ≡ digits_behind n s.now }
{
    let mut value = n;
    for &b in s {
        value = 10 * value + (b - b'0') as u64;
    }
    value
}

// An amount in cents.
fn amount_of(s: &[u8]) -> Option<u64>
    ensures { result ≡ amount_in s.now }
{
    let n = s.len();
    if n < 4 {
        return None;
    }
    if 12 < n {
        return None;
    }
    let (whole, rest) = (&s[..n - 3], &s[n - 2..]);
    if s[n - 3] != b'.' {
        return None;
    }
    if !classes::all_in(Class::Digit, whole) {
        return None;
    }
    if !classes::all_in(Class::Digit, rest) {
        return None;
    }
    Some(digits_behind(digits_behind(0, whole), rest))
}

// The cents of a text that is an amount above zero.
pub fn cents_of(text: Text<'_>) -> Result<u64, Refused>
    ensures { CentsOf text.entry.bytes.now result }
{
    match amount_of(text.bytes) {
        Some(cents) if cents != 0 => Ok(cents),
        _ => Err(Wrong::Amount.at(text.place)),
    }
}
