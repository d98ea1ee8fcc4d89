// The attribute that stands from a place on: whether one begins, where its value begins, and all its places.
ghost use Rattle.std.specs.Prelude.{◌≡◌, ◌&&◌, ltb, get_or};
ghost use Rattle.xml.specs.Bytes.{is_first};
ghost use Rattle.scan.specs.AttributeParts.{ValueBegun, AttributeRead};

use crate::{Name, Space, Value, byte, run_end};

// An attribute: where its name begins and ends, where its value begins, and the place of its closing quote.
#[derive(Clone, Copy)]
pub struct AttributePlaces {
    pub name: usize,
    pub end: usize,
    pub value: usize,
    pub close: usize,
}

// Where the value begins, behind its opening quote, of the attribute whose name begins at a place; or the place where it isn't one.
pub fn value_at(text: &[u8], at: usize) -> Result<usize, usize>
    ensures { ValueBegun text.now at result }
{
    let equals = run_end(text, run_end(text, at, &Name), &Space);
    if byte(text, equals) != b'=' {
        return Err(equals);
    }
    let quote = run_end(text, equals + 1, &Space);
    if byte(text, quote) != b'"' {
        return Err(quote);
    }
    Ok(quote + 1)
}

// Whether an attribute begins: white space up to a place behind this one, and a name there.
pub fn begins(text: &[u8], at: usize, name: usize) -> bool
    ensures { result ≡ (ltb at name && is_first (get_or text.now name 0)) }
{
    (at < name) & super::is_first(byte(text, name))
}

// The attribute from a place on, behind white space.
pub fn attribute_at(text: &[u8], at: usize) -> Option<AttributePlaces>
    ensures { AttributeRead text.now at result }
{
    let name = run_end(text, at, &Space);
    if !begins(text, at, name) {
        return None;
    }
    let value = value_at(text, name).ok()?;
    let close = run_end(text, value, &Value);
    if byte(text, close) != b'"' {
        return None;
    }
    let end = run_end(text, name, &Name);
    Some(AttributePlaces {
        name,
        end,
        value,
        close,
    })
}
