// How one participant's cover moves.
ghost use Rattle.std.specs.Prelude.{◌≡◌, ◌≤◌};
ghost use Rattle.rules.specs.Cover.{moved, whole};
ghost use Rattle.course.specs.Room.{most_number, Room};
ghost use Rattle.verdict.specs.Meaning.{Gains};

use rules::Cover;
use rules::decision::Move;

pub fn moved(how: Move, n: u64, c: Cover) -> Cover
    requires { Room how n c }
    ensures { result ≡ moved how n c }
{
    match how {
        Move::Stay => c,
        Move::Give => Cover {
            available: c.available + n,
            ..c
        },
        Move::Draw => Cover {
            available: c.available - n,
            ..c
        },
        Move::Reserve => Cover {
            available: c.available - n,
            reserved: c.reserved + n,
            ..c
        },
        Move::Release => Cover {
            available: c.available + n,
            reserved: c.reserved - n,
            ..c
        },
        Move::Spend => Cover {
            reserved: c.reserved - n,
            ..c
        },
        Move::Credit => Cover { held: 0, ..c },
        Move::Debit => Cover {
            available: c.available + n,
            debit: 0,
            ..c
        },
    }
}

// The same of a move that changes nothing but what is available: so the compiler writes nothing else.
pub fn gained(how: Move, n: u64, c: Cover) -> Cover
    requires { Gains how × Room how n c }
    ensures { result ≡ moved how n c }
{
    match how {
        Move::Give => Cover {
            available: c.available + n,
            ..c
        },
        _ => c,
    }
}

// Available, reserved and held.
pub fn whole(c: Cover) -> u64
    requires { whole c ≤ most_number }
    ensures { result ≡ whole c }
{
    c.available + c.reserved + c.held
}
