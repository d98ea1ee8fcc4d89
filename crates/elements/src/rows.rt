// The role of an element by that of the element around it and its name. Most elements of a message stand in one that is none of the named,
// and are told by the first test; the name of another is compared with those alone that its parent's row has.
ghost use Rattle.std.specs.Prelude.{◌≡◌, cond, ◌≤◌, ◌<◌};
ghost use Rattle.pacs.specs.Named.{row_of, outside, skipped};
ghost use Rattle.pacs.specs.Wrongs.{role_number};

use pacs::rows::{Role, Row};

// The named element of a row, where the name is that row's.
fn only(number: usize, named: bool) -> Role
    requires { number < 16 }
    ensures { role_number result ≡ cond named number 17 }
{
    if named {
        return Role::Named(Row { number });
    }
    Role::Skipped
}

// In the message: its header and its transfer.
#[tactic(auto, unfolding(pacs::specs::Named::row_of))]
fn in_message(name: &[u8]) -> Role
    ensures { role_number result ≡ row_of 1 name.now }
{
    if fields::same_bytes(b"GrpHdr", name) {
        return Role::Named(Row { number: 2 });
    }
    only(6, fields::same_bytes(b"CdtTrfTxInf", name))
}

// In the transfer: four of them.
#[tactic(auto, unfolding(pacs::specs::Named::row_of))]
fn in_transfer(name: &[u8]) -> Role
    ensures { role_number result ≡ row_of 6 name.now }
{
    if fields::same_bytes(b"PmtId", name) {
        return Role::Named(Row { number: 7 });
    }
    if fields::same_bytes(b"IntrBkSttlmAmt", name) {
        return Role::Named(Row { number: 9 });
    }
    if fields::same_bytes(b"CdtrAgt", name) {
        return Role::Named(Row { number: 10 });
    }
    only(13, fields::same_bytes(b"CdtrAcct", name))
}

// In the named element of a row.
#[tactic(auto, unfolding(pacs::specs::Named::row_of))]
fn row_in(row: usize, name: &[u8]) -> Role
    requires { row < 16 }
    ensures { role_number result ≡ row_of row name.now }
{
    match row {
        6 => in_transfer(name),
        1 => in_message(name),
        0 => only(1, fields::same_bytes(b"FIToFICstmrCdtTrf", name)),
        2 => only(3, fields::same_bytes(b"InstgAgt", name)),
        3 => only(4, fields::same_bytes(b"FinInstnId", name)),
        4 => only(5, fields::same_bytes(b"BIC", name)),
        7 => only(8, fields::same_bytes(b"TxId", name)),
        10 => only(11, fields::same_bytes(b"FinInstnId", name)),
        11 => only(12, fields::same_bytes(b"BIC", name)),
        13 => only(14, fields::same_bytes(b"Id", name)),
        14 => only(15, fields::same_bytes(b"IBAN", name)),
        _ => Role::Skipped,
    }
}

// It is one of the named elements or none of them, and never what stands around the root.
#[inline(never)]
pub fn row_of(parent: Role, name: &[u8]) -> Role
    ensures { (role_number result ≡ row_of (role_number parent) name.now)
        × (role_number result ≤ skipped)
        × (role_number result ≡ outside → ⊥) }
{
    match parent {
        Role::Skipped => Role::Skipped,
        Role::Named(row) => row_in(row.number, name),
        Role::Outside => only(0, fields::same_bytes(b"LBFastCdtTrf", name)),
        Role::Other(_) => Role::Skipped,
    }
}
