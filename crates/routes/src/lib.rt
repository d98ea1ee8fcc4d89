// Following routes. A row that isn't there, or that points at itself or further on, leads nowhere, so nothing is required; an accepted
// file has none such (`Arriving.antt` of `dayfile`).
#![tactic(auto)]

ghost use Rattle.std.specs.Prelude.{◌≡◌};
ghost use Rattle.dayfile.specs.Route.{target_in, followed, followed_from};

use dayfile::roster::{Roster, Route, Target};
use dayfile::route::Way;

// From a row on, until a participant is reached. The row number falls at each call.
pub fn follow(routes: &[Route; 64], row: usize) -> Option<Way>
    ensures { result ≡ followed (target_in routes.now) row }
{
    if 64 <= row {
        return None;
    }
    match routes[row].target {
        Target::To(p) => Some(Way {
            participant: p,
            rows: 1,
        }),
        Target::Row(k) => {
            if row <= k {
                return None;
            }
            let way = follow(routes, k)?;
            Some(Way {
                rows: way.rows + 1,
                ..way
            })
        }
    }
}

// The same from a row that was found on.
pub fn end_of(roster: &Roster, found: Option<usize>) -> Option<Way>
    ensures { result ≡ followed_from roster.now found }
{
    follow(&roster.routes, found?)
}
