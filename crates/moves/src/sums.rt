// What refusals 21 and 22 ask of all covers together.
ghost use Rattle.std.specs.Prelude.{◌≡◌, ◌+◌, ◌-◌, ◌≤◌, length};
ghost use Rattle.fields.specs.UpTo.{any_to};
ghost use Rattle.rules.specs.Book.{cover_of};
ghost use Rattle.rules.specs.Cover.{moved, whole, total_of, most_total};
ghost use Rattle.rules.specs.Find.{is_open};
ghost use Rattle.course.specs.Room.{most_number, Room};

use super::{cover, find};
use rules::Cover;
use rules::decision::Move;

pub fn total_of(covers: &[Cover]) -> u64
    requires { total_of (length covers.now) covers.now ≤ most_total }
    ensures { result ≡ total_of (length covers.now) covers.now }
{
    let mut total = 0;
    for &c in covers {
        total += cover::whole(c);
    }
    total
}

// Held or open debit anywhere.
pub fn any_open(covers: &[Cover]) -> bool
    ensures { result ≡ any_to (λ p. is_open (cover_of covers.now p)) (length covers.now) }
{
    let mut open = false;
    for &c in covers {
        open |= find::is_open(c);
    }
    open
}

// All cover, once one participant's has moved: by what the move changes, so that nothing is added up.
pub fn total_moved(how: Move, n: u64, c: Cover, total: u64) -> u64
    requires { Room how n c × (whole c ≤ total) × (total + whole (moved how n c) ≤ most_number) }
    ensures { result ≡ total - whole c + whole (moved how n c) }
{
    match how {
        Move::Stay | Move::Reserve | Move::Release => total,
        Move::Give | Move::Debit => total + n,
        Move::Draw | Move::Spend => total - n,
        Move::Credit => total - c.held,
    }
}
