// A BIC of a message as it stands in a ticket: eleven bytes, a short one filled with XXX.
ghost use Rattle.std.specs.Prelude.{◌≡◌};
ghost use Rattle.draft.specs.Drafting.{bic_field, BicOf};

use pacs::notes::Text;
use pacs::refusals::{Refused, Wrong};

// None where a text has neither eight bytes nor eleven.
fn bic_field(s: &[u8]) -> Option<[u8; 11]>
    ensures { result ≡ bic_field s.now }
{
    let mut field = [b'X'; 11];
    if s.len() == 8 {
        field[..8].copy_from_slice(s);
        return Some(field);
    }
    if s.len() == 11 {
        field.copy_from_slice(s);
        return Some(field);
    }
    None
}

// The eleven bytes of a text that is a BIC; else what is wrong is the one given.
pub fn bic_of(text: Text<'_>, wrong: Wrong) -> Result<[u8; 11], Refused>
    ensures { BicOf text.entry.bytes.now wrong result }
{
    match bic_field(text.bytes) {
        Some(field) if codes::zolfigar_bic_ok(&field) != 0 => Ok(field),
        _ => Err(wrong.at(text.place)),
    }
}
