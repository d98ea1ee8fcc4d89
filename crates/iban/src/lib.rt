// The check of an IBAN as it stands in a ticket, padded with zero bytes, and the remainder that it takes. A caller hands in the whole
// field. The check for C is in `codes`, and asks for front and remainder here.
#![tactic(auto)]

mod strides;

ghost use Rattle.std.specs.Prelude.{◌≡◌, ◌≤◌, length};
ghost use Rattle.fields.specs.Text.{unpadded};
ghost use Rattle.iban.specs.Iban.{is_iban};
ghost use Rattle.iban.specs.Strides.{iban_front};

use classes::Class;
pub use strides::divided;

// Two capitals, two digits, and a character more: of a padded field or of bytes by themselves.
pub fn iban_front(s: &[u8]) -> bool
    requires { 5 ≤ length s.now }
    ensures { result ≡ iban_front s.now }
{
    let country = classes::is_in(Class::Capital, s[0]) & classes::is_in(Class::Capital, s[1]);
    let check = classes::is_in(Class::Digit, s[2]) & classes::is_in(Class::Digit, s[3]);
    let more = s[4] != 0;
    country & check & more
}

// The remainder is asked of an IBAN's shape alone, so it comes last.
pub fn iban_ok(s: &[u8]) -> bool
    requires { length s.now ≡ 34 }
    ensures { result ≡ is_iban (unpadded s.now) }
{
    iban_front(s) && classes::all_padded(Class::CapitalOrDigit, s) && divided(s).remainder == 1
}
