// The digits of an IBAN, its first four characters behind the others, put together in strides: seven characters that are digits, else
// two, or the last one. Most IBANs have letters in few places, so most characters are taken seven at once. The bytes are of an IBAN's shape, by
// themselves or padded with zero bytes: a letter is then a byte above 63, and the first zero byte is the end.
ghost use Rattle.std.specs.Prelude.{◌≡◌, true, [], ◌∷◌, ◌+◌, ◌^◌, ◌≤◌, ◌<◌, length, get_or, take, drop};
ghost use Rattle.fields.specs.Number.{part};
ghost use Rattle.fields.specs.Text.{unpadded};
ghost use Rattle.classes.specs.Class.{is_in, all_in};
ghost use Rattle.classes.specs.declared.Class.TheVariants.{Capital, Digit, CapitalOrDigit};
ghost use Rattle.iban.specs.Iban.{value, digits_of, digits, read_decimal, rearranged, iban_shape};
ghost use Rattle.iban.specs.Groups.{group_count, over_groups};
ghost use Rattle.iban.specs.Strides.{five_more, Writes};

use remainder::{Divided, Held};

// Some characters as a number, how many digits it is written with, and how many characters they are.
#[derive(Clone, Copy)]
pub struct Stride {
    pub number: u32,
    pub digits: usize,
    pub length: usize,
}

// What a character counts for: a digit's byte is 48 above it, a capital's 55. From numbers of several characters all of that is taken off
// at once.
fn worth(c: u8) -> u32
    requires { is_in CapitalOrDigit c ≡ true }
    ensures { (result ≡ value c) × (result < 36) }
{
    if c < 64 {
        u32::from(c) - 48
    } else {
        u32::from(c) - 55
    }
}

// What the number before it is multiplied by: 10 for one digit, 100 for two.
fn scale(c: u8) -> u32
    requires { is_in CapitalOrDigit c ≡ true }
    ensures { (result ≡ 10 ^ length (digits_of c)) × (result ≤ 100) }
{
    if c < 64 { 10 } else { 100 }
}

fn digits_of(c: u8) -> usize
    requires { is_in CapitalOrDigit c ≡ true }
    ensures { (result ≡ length (digits_of c)) × (result ≤ 2) }
{
    if c < 64 { 1 } else { 2 }
}

// A byte, 0 past the end.
fn byte(s: &[u8], i: usize) -> u8
    ensures { result ≡ get_or s.now i 0 }
{
    s.get(i).copied().unwrap_or(0)
}

fn one(c: u8) -> Stride
    requires { is_in CapitalOrDigit c ≡ true }
    ensures { Writes result (c ∷ []) × (result.digits ≤ 7) }
{
    Stride {
        number: worth(c),
        digits: digits_of(c),
        length: 1,
    }
}

fn two(a: u8, b: u8) -> Stride
    requires { (is_in CapitalOrDigit a ≡ true) × (is_in CapitalOrDigit b ≡ true) }
    ensures { Writes result (a ∷ b ∷ []) × (result.digits ≤ 7) }
{
    Stride {
        number: worth(a) * scale(b) + worth(b),
        digits: digits_of(a) + digits_of(b),
        length: 2,
    }
}

// The same where both are digits.
fn two_digits(a: u8, b: u8) -> Stride
    requires { (is_in Digit a ≡ true) × (is_in Digit b ≡ true) }
    ensures { Writes result (a ∷ b ∷ []) × (result.digits ≤ 7) }
{
    Stride {
        number: u32::from(a) * 10 + u32::from(b) - 528,
        digits: 2,
        length: 2,
    }
}

// The same where both are capitals.
fn two_letters(a: u8, b: u8) -> Stride
    requires { (is_in Capital a ≡ true) × (is_in Capital b ≡ true) }
    ensures { Writes result (a ∷ b ∷ []) × (result.digits ≤ 7) }
{
    Stride {
        number: u32::from(a) * 100 + u32::from(b) - 5_555,
        digits: 4,
        length: 2,
    }
}

// Whether no letter and no end is among five bytes: behind a zero byte there are only zero bytes, so the last tells whether there is one.
// By index: with the five taken out by `first_chunk` an IBAN's check takes 3 to 6 in 100 longer.
fn five_more(s: &[u8], at: usize) -> bool
    requires { at ≤ length s.now }
    ensures { result ≡ five_more s.now at }
{
    if s.len() < at + 5 {
        return false;
    }
    (s[at] < 64)
        & (s[at + 1] < 64)
        & (s[at + 2] < 64)
        & (s[at + 3] < 64)
        & (s[at + 4] < 64)
        & (s[at + 4] != 0)
}

// Written out: a fold by tens waits for each product.
fn seven_digits(s: &[u8], i: usize) -> Stride
    requires { (i + 7 ≤ length s.now) × (all_in Digit (part 7 i s.now) ≡ true) }
    ensures { Writes result (part 7 i s.now) × (result.digits ≤ 7) }
{
    let number = u32::from(s[i]) * 1_000_000
        + u32::from(s[i + 1]) * 100_000
        + u32::from(s[i + 2]) * 10_000
        + u32::from(s[i + 3]) * 1_000
        + u32::from(s[i + 4]) * 100
        + u32::from(s[i + 5]) * 10
        + u32::from(s[i + 6]);
    Stride {
        number: number - 53_333_328,
        digits: 7,
        length: 7,
    }
}

// The stride from a character on. Letters stand together in most IBANs, so two of them are told apart from one beside a digit.
fn next_stride(s: &[u8], i: usize) -> Stride
    requires { (all_in CapitalOrDigit (unpadded s.now) ≡ true) × (i < length (unpadded s.now)) }
    ensures { (1 ≤ result.length) × (i + result.length ≤ length (unpadded s.now)) × Writes result (part result.length i s.now) × (result.digits ≤ 7) }
{
    let a = s[i];
    let b = byte(s, i + 1);
    if b == 0 {
        return one(a);
    }
    if (64 <= a) & (64 <= b) {
        return two_letters(a, b);
    }
    if (64 <= a) | (64 <= b) {
        return two(a, b);
    }
    if five_more(s, i + 2) {
        return seven_digits(s, i);
    }
    two_digits(a, b)
}

// The country and the check digits, which are six digits.
fn front(s: &[u8]) -> u32
    requires { (4 ≤ length s.now) × (all_in Capital (take 2 s.now) ≡ true) × (all_in Digit (take 2 (drop 2 s.now)) ≡ true) }
    ensures { (result ≡ read_decimal (digits (take 4 s.now))) × (result < 10 ^ 6) }
{
    u32::from(s[0]) * 10_000 + u32::from(s[1]) * 100 + u32::from(s[2]) * 10 + u32::from(s[3])
        - 556_028
}

// The remainder over the groups of seven digits, and how many these are.
pub fn divided(s: &[u8]) -> Divided
    requires { iban_shape (unpadded s.now) ≡ true }
    ensures { (result.remainder ≡ over_groups (digits (rearranged (unpadded s.now)))) × (result.groups ≡ group_count (digits (rearranged (unpadded s.now)))) }
{
    let mut held = Held::nothing();
    let mut i = 4;
    while byte(s, i) != 0 {
        let next = next_stride(s, i);
        held = held.put(next.number, next.digits);
        i += next.length;
    }
    held.put(front(s), 6).ended()
}
