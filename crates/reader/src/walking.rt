// The walk through a text's elements, a tag at a time.
ghost use Rattle.std.specs.Prelude.{◌≡◌, true, [], ◌+◌, ◌<◌, length};
ghost use Rattle.pacs.specs.Answering.{form_refusal};
ghost use Rattle.pacs.specs.Wrongs.{wrong_refusal};
ghost use Rattle.pacs.specs.Kept.{Kept};
ghost use Rattle.reader.specs.Walks.{RootOpened, WalkedTo};

use crate::{endings, meeting};
use elements::Tag;
use pacs::notes::Notes;
use pacs::open::Open;
use pacs::refusals::{Refused, Wrong};
use pacs::rows::Role;
use scan::{Name, Text};
use tags::{TagEnd, TagFault};

const DEEPEST: usize = 16;

fn refused(fault: TagFault) -> Refused
    ensures { wrong_refusal result.wrong ≡ form_refusal }
{
    match fault {
        TagFault::Broken(place) => Wrong::TagForm.at(place),
        TagFault::Repeated(place) => Wrong::NameTwice.at(place),
    }
}

// What the root holds, from behind its start tag to behind its end tag. The open elements are kept, the outermost first.
fn within<'a>(text: &'a [u8], root: Tag, notes: &mut Notes<'a>) -> Result<usize, Refused>
    requires { RootOpened text.now root.start root.name_end root.end
        × (root.nests ≡ true)
        × (root.name ≡ root.start + 1)
        × Kept [] notes.old }
    ensures { WalkedTo text.now root.start notes.new result }
{
    let name = &text[root.name..root.name_end];
    let role = meeting::meet(text, Role::Outside, root, notes);
    let mut open = [Open { name, role }; DEEPEST];
    let mut depth: usize = 1;
    let mut at = root.end;
    while 0 < depth {
        let start = scan::run_end(text, at, &Text);
        if scan::byte(text, start) != b'<' {
            return Err(Wrong::NoTag.at(start));
        }
        let top = depth - 1;
        let first = scan::byte(text, start + 1);
        if first == b'/' {
            let Some(behind) = endings::end_tag(text, start + 2, open[top].name) else {
                return Err(Wrong::NoEndTag.at(start));
            };
            depth = top;
            at = behind;
            continue;
        }
        if !scan::is_first(first) {
            return Err(Wrong::NoName.at(start));
        }
        if depth == DEEPEST {
            return Err(Wrong::TooDeep.at(start));
        }
        let name_end = scan::run_end(text, start + 1, &Name);
        let ended = match tags::tag_end(text, name_end) {
            Ok(ended) => ended,
            Err(fault) => return Err(refused(fault)),
        };
        match ended {
            TagEnd::Opens(end) => {
                let tag = Tag {
                    start,
                    name: start + 1,
                    name_end,
                    end,
                    nests: true,
                };
                let role = meeting::meet(text, open[top].role, tag, notes);
                let name = &text[start + 1..name_end];
                open[depth] = Open { name, role };
                depth += 1;
                at = end;
            }
            TagEnd::Closes(end) => {
                let tag = Tag {
                    start,
                    name: start + 1,
                    name_end,
                    end,
                    nests: false,
                };
                meeting::meet(text, open[top].role, tag, notes);
                at = end;
            }
        }
    }
    Ok(at)
}

// The place behind the root, whose < is due at a place.
pub fn walk<'a>(text: &'a [u8], start: usize, notes: &mut Notes<'a>) -> Result<usize, Refused>
    requires { Kept [] notes.old }
    ensures { WalkedTo text.now start notes.new result }
{
    if scan::byte(text, start) != b'<' {
        return Err(Wrong::NoRoot.at(start));
    }
    if !scan::is_first(scan::byte(text, start + 1)) {
        return Err(Wrong::NoName.at(start));
    }
    let name_end = scan::run_end(text, start + 1, &Name);
    match tags::long_tag_end(text, name_end) {
        Ok(TagEnd::Opens(end)) => {
            let root = Tag {
                start,
                name: start + 1,
                name_end,
                end,
                nests: true,
            };
            within(text, root, notes)
        }
        Ok(TagEnd::Closes(end)) => {
            let root = Tag {
                start,
                name: start + 1,
                name_end,
                end,
                nests: false,
            };
            meeting::meet(text, Role::Outside, root, notes);
            Ok(end)
        }
        Err(fault) => Err(refused(fault)),
    }
}
