// The classes of bytes that BIC, IBAN and TxId are made of: whether a byte is of a class, whether all of a slice are, and whether all
// before the padding of a field are. A class test looks at every byte, with no way out before the end: the compiler then takes eight at a
// time, which for codes of 5 to 35 bytes is quicker than to stop at the first that fails.
#![tactic(auto)]

mod padding;

ghost use Rattle.std.specs.Prelude.{◌≡◌};
ghost use Rattle.classes.specs.Class.{is_in, all_in};

pub use padding::all_padded;

#[derive(Clone, Copy)]
pub enum Class {
    Capital,
    Digit,
    CapitalOr2To9,
    CapitalButOOrDigit,
    CapitalOrDigit,
    Txid,
}

// Whether the byte c is of the class. Not by `matches!`, which branches: all of sixteen bytes then take eight times as long.
pub fn is_in(class: Class, c: u8) -> bool
    ensures { result ≡ is_in class c }
{
    let capital = c.is_ascii_uppercase();
    let digit = c.is_ascii_digit();
    match class {
        Class::Capital => capital,
        Class::Digit => digit,
        Class::CapitalOr2To9 => capital | (b'2'..=b'9').contains(&c),
        Class::CapitalButOOrDigit => (capital & (c != b'O')) | digit,
        Class::CapitalOrDigit => capital | digit,
        // From ' to : stand the digits and nine of the ten signs, and *, which is none.
        Class::Txid => {
            let up_to_colon = (b'\''..=b':').contains(&c) & (c != b'*');
            capital | c.is_ascii_lowercase() | (c == b'?') | up_to_colon
        }
    }
}

// Whether each byte of s is. All are looked at, with no way out before the end: so the compiler takes many at once.
pub fn all_in(class: Class, s: &[u8]) -> bool
    ensures { result ≡ all_in class s.now }
{
    let mut all = true;
    for &c in s {
        all &= is_in(class, c);
    }
    all
}
