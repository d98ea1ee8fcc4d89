// An order's status and recall mark. The functions stand here and not as methods at the type: `rules` has no code.
ghost use Rattle.std.specs.Prelude.{◌≡◌};
ghost use Rattle.rules.specs.Status.{is_waiting, is_unmarked, is_asked, settled_at, with_status};

use rules::{Order, Recall, Status};

pub fn is_waiting(s: Status) -> bool
    ensures { result ≡ is_waiting s }
{
    matches!(s, Status::Waiting)
}

pub fn is_unmarked(s: Status) -> bool
    ensures { result ≡ is_unmarked s }
{
    matches!(s, Status::Settled(Recall::None, _))
}

pub fn is_asked(s: Status) -> bool
    ensures { result ≡ is_asked s }
{
    matches!(s, Status::Settled(Recall::Asked, _))
}

// The time of its settlement, 0 where there is none.
pub fn settled_at(s: Status) -> u32
    ensures { result ≡ settled_at s }
{
    match s {
        Status::Returned(at, _) | Status::Settled(_, at) => at,
        _ => 0,
    }
}

pub fn with_status(o: Order, s: Status) -> Order
    ensures { result ≡ with_status o s }
{
    Order { status: s, ..o }
}
