// The bytes of a padded field: whether all before the padding are of a class. Where the padding begins is never asked: finding it is a
// walk of another length for each ticket, which the machine guesses wrong. Each byte is of its class, or a zero with a zero behind it; no
// class has the zero byte, so that is so exactly where all before the padding are of the class (`all-stand`).
ghost use Rattle.std.specs.Prelude.{◌≡◌};
ghost use Rattle.classes.specs.Class.{all_in};
ghost use Rattle.fields.specs.Text.{unpadded};
ghost use Rattle.classes.specs.PaddedBytes.{stands};

use super::Class;

// Whether a byte with next behind it may stand in the field: one of the class, or a zero with a zero behind it.
fn stands(class: Class, c: u8, next: u8) -> bool
    ensures { result ≡ stands class c next }
{
    super::is_in(class, c) | ((c == 0) & (next == 0))
}

// From the end, so that the byte behind each is at hand. No way out before the end: so the compiler takes many bytes at once.
pub fn all_padded(class: Class, s: &[u8]) -> bool
    ensures { result ≡ all_in class (unpadded s.now) }
{
    let mut all = true;
    let mut next = 0;
    for &c in s.iter().rev() {
        all &= stands(class, c, next);
        next = c;
    }
    all
}
