// An element that is met: its role, and what is kept of it where it is one of the named.
ghost use Rattle.std.specs.Prelude.{◌≤◌, length};
ghost use Rattle.pacs.specs.Wrongs.{role_number};
ghost use Rattle.reader.specs.Walks.{MetPlaced};

use elements::Tag;
use pacs::notes::Notes;
use pacs::rows::Role;

// It is put into its callers, and what it calls stays apart (`#[inline(never)]`): most elements take the first call alone.
#[inline]
pub fn meet<'a>(text: &'a [u8], parent: Role, tag: Tag, notes: &mut Notes<'a>) -> Role
    requires { (tag.name ≤ tag.name_end) × (tag.name_end ≤ length text.now) × (tag.end ≤ length text.now) }
    ensures { MetPlaced text.now (role_number parent) tag.name tag.name_end tag.end tag.nests notes.old notes.new
        (role_number result) }
{
    let role = elements::row_of(parent, &text[tag.name..tag.name_end]);
    if let Role::Named(row) = role {
        elements::note(text, row, tag, notes);
    }
    role
}
