// The prolog: where a text's XML declaration ends, if it has one. Its attributes are version, then encoding and standalone, each of the two
// or none; each is passed where it stands as it must, and ?> is due behind them.
#![tactic(auto)]

ghost use Rattle.std.specs.Prelude.{◌≡◌, ◌&&◌, ◌||◌, take};
ghost use Rattle.fields.specs.Text.{text as quoted, same};
ghost use Rattle.xml.specs.Bytes.{is_letter, is_encoding_byte};
ghost use Rattle.xml.specs.WellFormed.{is_encoding};
ghost use Rattle.prolog.specs.Ends.{is_due, due_test, Passed, Closed, PrologRead};

use scan::{AttributePlaces, Space};

// The attributes of a declaration.
#[derive(Clone, Copy, PartialEq, Eq)]
enum Due {
    Version,
    Encoding,
    Standalone,
}

#[tactic(auto, unfolding(xml::specs::Bytes::is_letter))]
fn is_letter(b: u8) -> bool
    ensures { result ≡ is_letter b }
{
    b.is_ascii_alphabetic()
}

// A byte of an encoding's name behind its first.
#[tactic(auto, unfolding(xml::specs::Bytes::is_encoding_byte))]
fn is_encoding_byte(b: u8) -> bool
    ensures { result ≡ is_encoding_byte b }
{
    is_letter(b) | b.is_ascii_digit() | (b == b'_') | (b == b'-') | (b == b'.')
}

// Whether a text is the name of an encoding.
fn is_encoding(s: &[u8]) -> bool
    ensures { result ≡ is_encoding s.now }
{
    if s.is_empty() {
        return false;
    }
    let mut right = is_letter(s[0]);
    for &b in &s[1..] {
        right &= is_encoding_byte(b);
    }
    right
}

fn is_version(name: &[u8], value: &[u8]) -> bool
    ensures { result ≡ (same name.now (quoted "version") && same value.now (quoted "1.0")) }
{
    fields::same_bytes(name, b"version") & fields::same_bytes(value, b"1.0")
}

fn is_encoding_of(name: &[u8], value: &[u8]) -> bool
    ensures { result ≡ (same name.now (quoted "encoding") && is_encoding value.now) }
{
    fields::same_bytes(name, b"encoding") & is_encoding(value)
}

fn is_standalone(name: &[u8], value: &[u8]) -> bool
    ensures { result ≡ (same name.now (quoted "standalone")
        && (same value.now (quoted "yes") || same value.now (quoted "no"))) }
{
    fields::same_bytes(name, b"standalone")
        & (fields::same_bytes(value, b"yes") | fields::same_bytes(value, b"no"))
}

// Whether a name and a value are those of the attribute that is due.
fn is_due(due: Due, name: &[u8], value: &[u8]) -> bool
    ensures { result ≡ is_due due name.now value.now }
{
    match due {
        Due::Version => is_version(name, value),
        Due::Encoding => is_encoding_of(name, value),
        Due::Standalone => is_standalone(name, value),
    }
}

// The place behind the attribute that is due, or the same place where it doesn't stand there: no Option, since the next attribute is due
// there then.
fn due_end(text: &[u8], at: usize, due: Due) -> usize
    ensures { Passed (due_test due) text.now at result }
{
    let Some(
        AttributePlaces {
            name,
            end,
            value,
            close,
        },
    ) = scan::attribute_at(text, at)
    else {
        return at;
    };
    if is_due(due, &text[name..end], &text[value..close]) {
        return close + 1;
    }
    at
}

// The end of a declaration whose attributes end at a place: white space and ?>; or the place where they are due.
fn closed_at(text: &[u8], at: usize) -> Result<usize, usize>
    ensures { Closed text.now at result }
{
    let end = scan::run_end(text, at, &Space);
    if scan::byte(text, end) != b'?' {
        return Err(end);
    }
    if scan::byte(text, end + 1) != b'>' {
        return Err(end);
    }
    Ok(end + 2)
}

// Whether a text begins as a declaration does.
fn is_declared(text: &[u8]) -> bool
    ensures { result ≡ same (take 5 text.now) (quoted "<?xml") }
{
    if text.len() < 5 {
        return false;
    }
    fields::same_bytes(&text[0..5], b"<?xml")
}

// Where a text's prolog ends: 0 where it has none; or the place of the attribute that isn't right, or that where ?> is due.
pub fn prolog_end(text: &[u8]) -> Result<usize, usize>
    ensures { PrologRead text.now result }
{
    if !is_declared(text) {
        return Ok(0);
    }
    let version = due_end(text, 5, Due::Version);
    if version == 5 {
        return Err(scan::run_end(text, 5, &Space));
    }
    let encoding = due_end(text, version, Due::Encoding);
    closed_at(text, due_end(text, encoding, Due::Standalone))
}
