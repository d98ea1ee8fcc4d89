// The roster of a file whose rows are right. Rows of participants and of routes start where a header says, so that rows elsewhere can be
// read by the same functions.
ghost use Rattle.std.specs.Prelude.{◌≡◌, ℕ, ◌+◌, ◌≤◌, ◌<◌, length};
ghost use Rattle.fields.specs.UpTo.{rows_to};
ghost use Rattle.dayfile.specs.FileLimits.{participant_length, route_length};
ghost use Rattle.dayfile.specs.Roster.{
  participant_at,
  route_at,
  RowsWithin,
  roster_of,
  no_participant,
  no_route,
};

use dayfile::header::Header;
use dayfile::limits;
use dayfile::roster::{Participant, PartyKind, Roster, Route, Target};

fn participant_at(f: &[u8], at: usize) -> Participant
    requires { at + participant_length ≤ length f.now }
    ensures { result ≡ participant_at at f.now }
{
    Participant {
        bic: f[at..at + 11].try_into().unwrap(),
        kind: if f[at + 11] == 1 {
            PartyKind::Linked
        } else {
            PartyKind::Bank
        },
        opening: (f[at + 20] == 1).then_some(fields::u64_at(f, at + 12)),
    }
}

fn route_at(f: &[u8], at: usize) -> Route
    requires { at + route_length ≤ length f.now }
    ensures { result ≡ route_at at f.now }
{
    let k = fields::u16_at(f, at + 12) as usize;
    Route {
        bic: f[at..at + 11].try_into().unwrap(),
        target: if f[at + 11] == 1 {
            Target::Row(k)
        } else {
            Target::To(k)
        },
    }
}

// A row that is not in use.
fn no_participant() -> Participant
    ensures { result ≡ no_participant }
{
    Participant {
        bic: [0u8; 11],
        kind: PartyKind::Bank,
        opening: None,
    }
}

fn no_route() -> Route
    ensures { result ≡ no_route }
{
    Route {
        bic: [0u8; 11],
        target: Target::To(0),
    }
}

// A table whose first n rows are made of their numbers; the others are not in use.
fn table<T: Copy, const N: usize, F: Fn(usize) -> T>(unused: T, n: usize, row: F) -> [T; N]
    requires { (n ≤ N) × ((i : ℕ) → i < n → F.pre row i) }
    ensures { (rows : ℕ → T) → ((i : ℕ) (r : T) → i < n → F.post row i r → r ≡ rows i)
        → result ≡ rows_to N unused rows n }
{
    let mut all = [unused; N];
    for i in 0..n {
        all[i] = row(i);
    }
    all
}

// The counts are in range and the rows lie within the file.
pub fn read_roster(h: Header, f: &[u8]) -> Roster
    requires { RowsWithin h (length f.now) }
    ensures { result ≡ roster_of h f.now }
{
    let n = h.counts;
    let at = h.offsets;
    Roster {
        participants: table(no_participant(), n.participants, |p| {
            participant_at(f, at.participants + limits::PARTICIPANT_LENGTH * p)
        }),
        size: n.participants,
        routes: table(no_route(), n.routes, |i| {
            route_at(f, at.routes + limits::ROUTE_LENGTH * i)
        }),
        rows: n.routes,
    }
}
