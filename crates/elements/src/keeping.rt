// What is kept of the named elements. Once something is wrong nothing more is kept.
ghost use Rattle.std.specs.Prelude.{◌≡◌, ◌||◌, not, cond, List, [], ℕ, ◌+◌, ◌≤◌, eqb, length, get_or, drop, None};
ghost use Rattle.xml.specs.Bytes.{is_text, run_length};
ghost use Rattle.xml.specs.Tree.{Attribute};
ghost use Rattle.xml.specs.Scanning.{attributes_in, attributed};
ghost use Rattle.pacs.specs.Named.{is_text_row};
ghost use Rattle.pacs.specs.Judged.{is_euro};
ghost use Rattle.pacs.specs.Kept.{KeptPlaced};
ghost use Rattle.elements.specs.Noted.{fault_of, told_fault, keeping, Noted};

use super::{Tag, currency};
use pacs::notes::{Notes, Text};
use pacs::refusals::Wrong;
use pacs::rows::{AMOUNT, IBAN, PAYEE, Row, SENDER, TXID};

// Whether a row's text is asked for.
fn is_text_row(row: Row) -> bool
    ensures { result ≡ is_text_row row.number }
{
    let n = row.number;
    (n == SENDER) | (n == TXID) | (n == AMOUNT) | (n == PAYEE) | (n == IBAN)
}

// Where the text ends that begins at a place; that place, where no text is read.
fn end_of(text: &[u8], at: usize, reads: bool) -> usize
    requires { at ≤ length text.now }
    ensures { (result ≡ cond reads (at + run_length is_text (drop at text.now)) at)
        × (at ≤ result)
        × (result ≤ length text.now) }
{
    if reads {
        return scan::run_end(text, at, &scan::Text);
    }
    at
}

// Whether an end tag stands behind the text that was read.
fn is_plain(text: &[u8], end: usize, reads: bool) -> bool
    requires { end ≤ length text.now }
    ensures { result ≡ (not reads || eqb (get_or text.now (end + 1) 0) 47) }
{
    !reads | (scan::byte(text, end + 1) == b'/')
}

// What is wrong with an element of a row, by the row that is due. Where an earlier row is due, that one is missing.
fn fault_of(row: Row, due: usize, plain: bool) -> Option<Wrong>
    ensures { told_fault result (fault_of row.number due plain) }
{
    if row.number < due {
        return Some(Wrong::Again(row));
    }
    if row.number != due {
        return Some(Wrong::Missing(Row { number: due }));
    }
    if plain {
        return None;
    }
    Some(Wrong::Nested(row))
}

// Of the amount, by its attributes; what was kept, of any other row.
fn euro_of(text: &[u8], row: Row, behind: usize, old: bool) -> bool
    ensures { (fuel : ℕ) (more : List Attribute) (space z : List ℕ)
        → attributes_in fuel (drop behind text.now) ≡ attributed more space z
        → result ≡ cond (eqb row.number 9) (is_euro more) old }
{
    if row.number == AMOUNT {
        return currency::only_euro(text, behind);
    }
    old
}

// A named element was met: its attributes stand behind its name.
#[inline(never)]
pub fn note<'a>(text: &'a [u8], row: Row, tag: Tag, notes: &mut Notes<'a>)
    requires { tag.end ≤ length text.now }
    ensures { Noted text.now row.number tag.name_end tag.end tag.nests notes.old notes.new
        × (KeptPlaced text.now notes.old → KeptPlaced text.now notes.new) }
{
    if notes.fault.is_some() {
        return;
    }
    let reads = tag.nests & is_text_row(row);
    let end = end_of(text, tag.end, reads);
    let plain = is_plain(text, end, reads);
    if let Some(wrong) = fault_of(row, notes.due, plain) {
        notes.fault = Some(wrong.at(tag.start));
        return;
    }
    notes.euro = euro_of(text, row, tag.name_end, notes.euro);
    notes.texts[row.number] = Text {
        place: tag.end,
        bytes: &text[tag.end..end],
    };
    notes.due = row.number + 1;
}
