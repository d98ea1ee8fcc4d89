// The checks of BIC, IBAN and TxId, which answer 1 for yes and 0 for no, and how many groups of digits the check of an IBAN takes. Each
// takes unpadded bytes of any length and content; nothing is asked of a caller. They are the same functions for other crates and for C
// (include/zolfigar.h). Beside them the check of a TxId as it stands in a ticket, padded with zero bytes; that of an IBAN is in `iban`.
// An IBAN's front is tested and its remainder taken in one place, in `iban`, which speaks of the bytes before the padding: bytes of an
// IBAN's shape don't end in a zero, so that is all of them (`shape-whole`).
#![tactic(auto)]

ghost use Rattle.std.specs.Prelude.{◌≡◌, ◌≤◌, cond, length};
ghost use Rattle.fields.specs.Text.{unpadded};
ghost use Rattle.classes.specs.CheckAnswer.{answer};
ghost use Rattle.classes.specs.Class.{all_in};
ghost use Rattle.classes.specs.declared.Class.TheVariants.{CapitalOrDigit};
ghost use Rattle.iban.specs.Iban.{digits, rearranged, iban_shape, is_iban};
ghost use Rattle.iban.specs.Groups.{over_groups, iban_groups};
ghost use Rattle.codes.specs.Bic.{is_bic};
ghost use Rattle.codes.specs.Txid.{is_txid};

use classes::Class;
use remainder::Divided;

#[tactic(auto, unfolding(crate::specs::Bic::is_bic))]
#[unsafe(no_mangle)]
pub extern "C" fn zolfigar_bic_ok(s: &[u8]) -> u8
    ensures { result ≡ answer (is_bic s.now) }
{
    if s.len() != 11 {
        return 0;
    }
    let letters = classes::all_in(Class::Capital, &s[..6]);
    let area = classes::is_in(Class::CapitalOr2To9, s[6]);
    let place = classes::is_in(Class::CapitalButOOrDigit, s[7]);
    let branch = classes::all_in(Class::CapitalOrDigit, &s[8..]);
    u8::from(letters & area & place & branch)
}

// Whether all are capitals and digits, where the first sixteen and the last sixteen are all: the machine looks at sixteen at once.
fn sixteens_spelt(s: &[u8]) -> bool
    requires { (16 ≤ length s.now) × (length s.now ≤ 32) }
    ensures { result ≡ all_in CapitalOrDigit s.now }
{
    let n = s.len();
    classes::all_in(Class::CapitalOrDigit, &s[..16])
        & classes::all_in(Class::CapitalOrDigit, &s[n - 16..])
}

// The same of any bytes. Most IBANs have 16 to 32 characters.
fn spelt(s: &[u8]) -> bool
    ensures { result ≡ all_in CapitalOrDigit s.now }
{
    match s.len() {
        16..=32 => sixteens_spelt(s),
        _ => classes::all_in(Class::CapitalOrDigit, s),
    }
}

fn shaped(s: &[u8]) -> bool
    ensures { result ≡ iban_shape s.now }
{
    match s.len() {
        5..=34 => iban::iban_front(s) && spelt(s),
        _ => false,
    }
}

// The check of unpadded bytes as an IBAN, for both functions below: the remainder, and how many groups it was taken over. Both are 0 where the shape
// is no IBAN's. As an Option it goes through memory with one word more, and an IBAN's check takes a fifth longer.
fn checked(s: &[u8]) -> Divided
    ensures { (result.remainder ≡ cond (iban_shape s.now) (over_groups (digits (rearranged s.now))) 0) × (result.groups ≡ iban_groups s.now) }
{
    if !shaped(s) {
        return Divided {
            remainder: 0,
            groups: 0,
        };
    }
    iban::divided(s)
}

#[unsafe(no_mangle)]
pub extern "C" fn zolfigar_iban_ok(s: &[u8]) -> u8
    ensures { result ≡ answer (is_iban s.now) }
{
    u8::from(checked(s).remainder == 1)
}

// 02, slip 4: the number of groups of seven digits that the check takes, 1 to 10, whether or not 1 is left; 0 where the shape is no
// IBAN's.
#[unsafe(no_mangle)]
pub extern "C" fn zolfigar_iban_groups(s: &[u8]) -> u8
    ensures { result ≡ iban_groups s.now }
{
    checked(s).groups as u8
}

#[tactic(auto, unfolding(crate::specs::Txid::is_txid))]
#[unsafe(no_mangle)]
pub extern "C" fn zolfigar_txid_ok(s: &[u8]) -> u8
    ensures { result ≡ answer (is_txid s.now) }
{
    match s.len() {
        1..=35 => u8::from(classes::all_in(Class::Txid, s)),
        _ => 0,
    }
}

// A TxId in its padded field: where the padding begins is never asked.
pub fn txid_ok(s: &[u8]) -> bool
    requires { length s.now ≡ 35 }
    ensures { result ≡ is_txid (unpadded s.now) }
{
    (s[0] != 0) & classes::all_padded(Class::Txid, s)
}
