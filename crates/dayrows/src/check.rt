// Refusals 2 to 5, each by an enum.
ghost use Rattle.std.specs.Prelude.{◌≡◌, ◌+◌, ◌*◌, ◌≤◌, length};
ghost use Rattle.dayfile.specs.FileLimits.{most_participants, most_routes, participant_length, route_length};
ghost use Rattle.dayfile.specs.Check.{CountsInRange, ranged, placed, enrolled, routed};

use super::{repeats, rows};
use dayfile::check::{Enrolled, Placed, Ranged, Routed};
use dayfile::header::Header;
use dayfile::limits;
use ticket::layout;

pub fn check_counts(h: Header) -> Ranged
    ensures { result ≡ ranged h }
{
    let n = h.counts;
    if (1 <= n.participants)
        & (n.participants <= limits::MOST_PARTICIPANTS)
        & (n.routes <= limits::MOST_ROUTES)
        & (n.tickets <= limits::MOST_TICKETS)
    {
        Ranged::Within
    } else {
        Ranged::Outside
    }
}

pub fn check_places(h: Header, bytes: usize) -> Placed
    requires { CountsInRange h.counts }
    ensures { result ≡ placed h bytes }
{
    let n = h.counts;
    let at = h.offsets;
    let routes = limits::HEADER_LENGTH + limits::PARTICIPANT_LENGTH * n.participants;
    let tickets = routes + limits::ROUTE_LENGTH * n.routes;
    let end = tickets + layout::LENGTH * n.tickets;
    if (at.participants == limits::HEADER_LENGTH)
        & (at.routes == routes)
        & (at.tickets == tickets)
        & (bytes == end)
    {
        Placed::Right
    } else {
        Placed::Wrong
    }
}

pub fn check_participants(start: usize, n: usize, f: &[u8]) -> Enrolled
    requires { (n ≤ most_participants) × (start + participant_length * n ≤ length f.now) }
    ensures { result ≡ enrolled start n f.now }
{
    let mut ok = true;
    for i in 0..n {
        ok &= rows::participant_ok(f, start + limits::PARTICIPANT_LENGTH * i);
    }
    if ok & !repeats::bic_repeats(f, start, limits::PARTICIPANT_LENGTH, n) {
        Enrolled::Right
    } else {
        Enrolled::Wrong
    }
}

pub fn check_routes(size: usize, start: usize, n: usize, f: &[u8]) -> Routed
    requires { (n ≤ most_routes) × (start + route_length * n ≤ length f.now) }
    ensures { result ≡ routed size start n f.now }
{
    let mut ok = true;
    for i in 0..n {
        ok &= rows::route_ok(f, start + limits::ROUTE_LENGTH * i, size, i);
    }
    if ok & !repeats::bic_repeats(f, start, limits::ROUTE_LENGTH, n) {
        Routed::Right
    } else {
        Routed::Wrong
    }
}
