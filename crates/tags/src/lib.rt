// Tags: what stands behind a tag's name. Its attributes are read from the left, each up to its closing quote; where there are two or more,
// their names are compared. Most tags have no attribute, and end at the first byte that is looked at.
#![tactic(auto)]

ghost use Rattle.std.specs.Prelude.{◌≡◌, List, ℕ, ◌≤◌, length, drop};
ghost use Rattle.xml.specs.Tree.{Attribute};
ghost use Rattle.xml.specs.Scanning.{attributes_of, attributed, tag_behind};
ghost use Rattle.tags.specs.Tagged.{AttributeEnded, RepeatsTold, Tagged};

use scan::{Space, Value};

// Where a tag ends: the place behind > or />.
#[derive(Clone, Copy)]
pub enum TagEnd {
    Opens(usize),
    Closes(usize),
}

// What is wrong with a tag: the place where it isn't one, or where it would end if no name stood twice.
#[derive(Clone, Copy)]
pub enum TagFault {
    Broken(usize),
    Repeated(usize),
}

// Where the attribute ends whose name begins at a place; or the place where it isn't one.
fn attribute_end(text: &[u8], at: usize) -> Result<usize, usize>
    ensures { AttributeEnded text.now at result }
{
    let value = scan::value_at(text, at)?;
    let close = scan::run_end(text, value, &Value);
    if scan::byte(text, close) != b'"' {
        return Err(close);
    }
    Ok(close + 1)
}

// Whether a name stands twice among the attributes, of which there are count. Fewer than two have no name twice.
fn repeated(text: &[u8], at: usize, count: usize) -> bool
    ensures { RepeatsTold text.now at count result }
{
    let few = count <= 1;
    if few {
        return false;
    }
    repeats::repeated(text, at, count)
}

// The end of a tag whose attributes, count of them from a place on, and the white space behind them were read.
fn ending(text: &[u8], at: usize, end: usize, count: usize) -> Result<TagEnd, TagFault>
    ensures { (name : List ℕ) (more : List Attribute) (space : List ℕ) → at ≤ end
        → attributes_of (drop at text.now) ≡ attributed more space (drop end text.now) → count ≡ length more
        → Tagged text.now at (tag_behind name (attributes_of (drop at text.now))) result }
{
    if repeated(text, at, count) {
        return Err(TagFault::Repeated(end));
    }
    let b = scan::byte(text, end);
    if b == b'>' {
        return Ok(TagEnd::Opens(end + 1));
    }
    if b != b'/' {
        return Err(TagFault::Broken(end));
    }
    if scan::byte(text, end + 1) != b'>' {
        return Err(TagFault::Broken(end));
    }
    Ok(TagEnd::Closes(end + 2))
}

// The end of a tag that may have more behind its name than >. It stays a function of its own for the compiler, and `tag_end` is short enough
// to be put into its caller.
#[inline(never)]
pub fn long_tag_end(text: &[u8], at: usize) -> Result<TagEnd, TagFault>
    ensures { (name : List ℕ) → Tagged text.now at (tag_behind name (attributes_of (drop at text.now))) result }
{
    let mut from = at;
    let mut next = scan::run_end(text, at, &Space);
    let mut count: usize = 0;
    while scan::begins(text, from, next) {
        from = attribute_end(text, next).map_err(TagFault::Broken)?;
        next = scan::run_end(text, from, &Space);
        count += 1;
    }
    ending(text, at, next, count)
}

// What stands behind a tag's name, from a place on: attributes, white space, and > or />.
pub fn tag_end(text: &[u8], at: usize) -> Result<TagEnd, TagFault>
    ensures { (name : List ℕ) → Tagged text.now at (tag_behind name (attributes_of (drop at text.now))) result }
{
    if scan::byte(text, at) == b'>' {
        return Ok(TagEnd::Opens(at + 1));
    }
    long_tag_end(text, at)
}
